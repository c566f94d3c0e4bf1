// The plan texts of the flights.

pub const EMPTY_TITLE: &str = "empty text";

pub const EMPTY: [u8; 0] = [];

pub const DRONES_32_TITLE: &str = "32 drones";

pub const DRONES_32: [u8; 752] =
    *b"plan=1\nagents=32\nname=a\nstops=1\ngo=0@0\nname=b\nstops=1\ngo=1@0\nname=c\nstops=1\ngo=2@0\nname=d\nstops=1\ngo=3@0\nname=e\nstops=1\ngo=4@0\nname=f\nstops=1\ngo=5@0\nname=g\nstops=1\ngo=6@0\nname=h\nstops=1\ngo=7@0\nname=i\nstops=1\ngo=8@0\nname=j\nstops=1\ngo=9@0\nname=k\nstops=1\ngo=10@0\nname=l\nstops=1\ngo=11@0\nname=m\nstops=1\ngo=12@0\nname=n\nstops=1\ngo=13@0\nname=o\nstops=1\ngo=14@0\nname=p\nstops=1\ngo=15@0\nname=q\nstops=1\ngo=16@0\nname=r\nstops=1\ngo=17@0\nname=s\nstops=1\ngo=18@0\nname=t\nstops=1\ngo=19@0\nname=u\nstops=1\ngo=20@0\nname=v\nstops=1\ngo=21@0\nname=w\nstops=1\ngo=22@0\nname=x\nstops=1\ngo=23@0\nname=y\nstops=1\ngo=24@0\nname=z\nstops=1\ngo=25@0\nname=0\nstops=1\ngo=26@0\nname=1\nstops=1\ngo=27@0\nname=2\nstops=1\ngo=28@0\nname=3\nstops=1\ngo=29@0\nname=4\nstops=1\ngo=30@0\nname=5\nstops=1\ngo=31@0\nend=plan\n";

pub const DRONES_33_TITLE: &str = "33 drones";

pub const DRONES_33: [u8; 775] =
    *b"plan=1\nagents=33\nname=a\nstops=1\ngo=0@0\nname=b\nstops=1\ngo=1@0\nname=c\nstops=1\ngo=2@0\nname=d\nstops=1\ngo=3@0\nname=e\nstops=1\ngo=4@0\nname=f\nstops=1\ngo=5@0\nname=g\nstops=1\ngo=6@0\nname=h\nstops=1\ngo=7@0\nname=i\nstops=1\ngo=8@0\nname=j\nstops=1\ngo=9@0\nname=k\nstops=1\ngo=10@0\nname=l\nstops=1\ngo=11@0\nname=m\nstops=1\ngo=12@0\nname=n\nstops=1\ngo=13@0\nname=o\nstops=1\ngo=14@0\nname=p\nstops=1\ngo=15@0\nname=q\nstops=1\ngo=16@0\nname=r\nstops=1\ngo=17@0\nname=s\nstops=1\ngo=18@0\nname=t\nstops=1\ngo=19@0\nname=u\nstops=1\ngo=20@0\nname=v\nstops=1\ngo=21@0\nname=w\nstops=1\ngo=22@0\nname=x\nstops=1\ngo=23@0\nname=y\nstops=1\ngo=24@0\nname=z\nstops=1\ngo=25@0\nname=0\nstops=1\ngo=26@0\nname=1\nstops=1\ngo=27@0\nname=2\nstops=1\ngo=28@0\nname=3\nstops=1\ngo=29@0\nname=4\nstops=1\ngo=30@0\nname=5\nstops=1\ngo=31@0\nname=6\nstops=1\ngo=32@0\nend=plan\n";

pub const DRONES_64_TITLE: &str = "64 drones";

pub const DRONES_64: [u8; 1526] =
    *b"plan=1\nagents=64\nname=a\nstops=1\ngo=0@0\nname=b\nstops=1\ngo=1@0\nname=c\nstops=1\ngo=2@0\nname=d\nstops=1\ngo=3@0\nname=e\nstops=1\ngo=4@0\nname=f\nstops=1\ngo=5@0\nname=g\nstops=1\ngo=6@0\nname=h\nstops=1\ngo=7@0\nname=i\nstops=1\ngo=8@0\nname=j\nstops=1\ngo=9@0\nname=k\nstops=1\ngo=10@0\nname=l\nstops=1\ngo=11@0\nname=m\nstops=1\ngo=12@0\nname=n\nstops=1\ngo=13@0\nname=o\nstops=1\ngo=14@0\nname=p\nstops=1\ngo=15@0\nname=q\nstops=1\ngo=16@0\nname=r\nstops=1\ngo=17@0\nname=s\nstops=1\ngo=18@0\nname=t\nstops=1\ngo=19@0\nname=u\nstops=1\ngo=20@0\nname=v\nstops=1\ngo=21@0\nname=w\nstops=1\ngo=22@0\nname=x\nstops=1\ngo=23@0\nname=y\nstops=1\ngo=24@0\nname=z\nstops=1\ngo=25@0\nname=aa\nstops=1\ngo=26@0\nname=ab\nstops=1\ngo=27@0\nname=ac\nstops=1\ngo=28@0\nname=ad\nstops=1\ngo=29@0\nname=ae\nstops=1\ngo=30@0\nname=af\nstops=1\ngo=31@0\nname=ag\nstops=1\ngo=32@0\nname=ah\nstops=1\ngo=33@0\nname=ai\nstops=1\ngo=34@0\nname=aj\nstops=1\ngo=35@0\nname=ak\nstops=1\ngo=36@0\nname=al\nstops=1\ngo=37@0\nname=am\nstops=1\ngo=38@0\nname=an\nstops=1\ngo=39@0\nname=ao\nstops=1\ngo=40@0\nname=ap\nstops=1\ngo=41@0\nname=aq\nstops=1\ngo=42@0\nname=ar\nstops=1\ngo=43@0\nname=as\nstops=1\ngo=44@0\nname=at\nstops=1\ngo=45@0\nname=au\nstops=1\ngo=46@0\nname=av\nstops=1\ngo=47@0\nname=aw\nstops=1\ngo=48@0\nname=ax\nstops=1\ngo=49@0\nname=ay\nstops=1\ngo=50@0\nname=az\nstops=1\ngo=51@0\nname=ba\nstops=1\ngo=52@0\nname=bb\nstops=1\ngo=53@0\nname=bc\nstops=1\ngo=54@0\nname=bd\nstops=1\ngo=55@0\nname=be\nstops=1\ngo=56@0\nname=bf\nstops=1\ngo=57@0\nname=bg\nstops=1\ngo=58@0\nname=bh\nstops=1\ngo=59@0\nname=bi\nstops=1\ngo=60@0\nname=bj\nstops=1\ngo=61@0\nname=bk\nstops=1\ngo=62@0\nname=bl\nstops=1\ngo=63@0\nend=plan\n";

pub const DRONES_65_TITLE: &str = "65 drones";

pub const DRONES_65: [u8; 1550] =
    *b"plan=1\nagents=65\nname=a\nstops=1\ngo=0@0\nname=b\nstops=1\ngo=1@0\nname=c\nstops=1\ngo=2@0\nname=d\nstops=1\ngo=3@0\nname=e\nstops=1\ngo=4@0\nname=f\nstops=1\ngo=5@0\nname=g\nstops=1\ngo=6@0\nname=h\nstops=1\ngo=7@0\nname=i\nstops=1\ngo=8@0\nname=j\nstops=1\ngo=9@0\nname=k\nstops=1\ngo=10@0\nname=l\nstops=1\ngo=11@0\nname=m\nstops=1\ngo=12@0\nname=n\nstops=1\ngo=13@0\nname=o\nstops=1\ngo=14@0\nname=p\nstops=1\ngo=15@0\nname=q\nstops=1\ngo=16@0\nname=r\nstops=1\ngo=17@0\nname=s\nstops=1\ngo=18@0\nname=t\nstops=1\ngo=19@0\nname=u\nstops=1\ngo=20@0\nname=v\nstops=1\ngo=21@0\nname=w\nstops=1\ngo=22@0\nname=x\nstops=1\ngo=23@0\nname=y\nstops=1\ngo=24@0\nname=z\nstops=1\ngo=25@0\nname=aa\nstops=1\ngo=26@0\nname=ab\nstops=1\ngo=27@0\nname=ac\nstops=1\ngo=28@0\nname=ad\nstops=1\ngo=29@0\nname=ae\nstops=1\ngo=30@0\nname=af\nstops=1\ngo=31@0\nname=ag\nstops=1\ngo=32@0\nname=ah\nstops=1\ngo=33@0\nname=ai\nstops=1\ngo=34@0\nname=aj\nstops=1\ngo=35@0\nname=ak\nstops=1\ngo=36@0\nname=al\nstops=1\ngo=37@0\nname=am\nstops=1\ngo=38@0\nname=an\nstops=1\ngo=39@0\nname=ao\nstops=1\ngo=40@0\nname=ap\nstops=1\ngo=41@0\nname=aq\nstops=1\ngo=42@0\nname=ar\nstops=1\ngo=43@0\nname=as\nstops=1\ngo=44@0\nname=at\nstops=1\ngo=45@0\nname=au\nstops=1\ngo=46@0\nname=av\nstops=1\ngo=47@0\nname=aw\nstops=1\ngo=48@0\nname=ax\nstops=1\ngo=49@0\nname=ay\nstops=1\ngo=50@0\nname=az\nstops=1\ngo=51@0\nname=ba\nstops=1\ngo=52@0\nname=bb\nstops=1\ngo=53@0\nname=bc\nstops=1\ngo=54@0\nname=bd\nstops=1\ngo=55@0\nname=be\nstops=1\ngo=56@0\nname=bf\nstops=1\ngo=57@0\nname=bg\nstops=1\ngo=58@0\nname=bh\nstops=1\ngo=59@0\nname=bi\nstops=1\ngo=60@0\nname=bj\nstops=1\ngo=61@0\nname=bk\nstops=1\ngo=62@0\nname=bl\nstops=1\ngo=63@0\nname=bm\nstops=1\ngo=64@0\nend=plan\n";

pub const NAME_24_TITLE: &str = "name of 24 bytes";

pub const NAME_24: [u8; 70] =
    *b"plan=1\nagents=1\nname=survey-quad-east-0000001\nstops=1\ngo=1@0\nend=plan\n";

pub const NAME_25_TITLE: &str = "name of 25 bytes";

pub const NAME_25: [u8; 71] =
    *b"plan=1\nagents=1\nname=survey-quad-east-00000012\nstops=1\ngo=1@0\nend=plan\n";

pub const LOCATION_TOP_TITLE: &str = "location 65535";

pub const LOCATION_TOP: [u8; 51] = *b"plan=1\nagents=1\nname=a\nstops=1\ngo=65535@0\nend=plan\n";

pub const LOCATION_OVER_TITLE: &str = "location 65536";

pub const LOCATION_OVER: [u8; 51] = *b"plan=1\nagents=1\nname=a\nstops=1\ngo=65536@0\nend=plan\n";

pub const TIME_TOP_TITLE: &str = "time 1000000";

pub const TIME_TOP: [u8; 60] =
    *b"plan=1\nagents=1\nname=a\nstops=2\ngo=1@0\ngo=2@1000000\nend=plan\n";

pub const TIME_OVER_TITLE: &str = "time 1000001";

pub const TIME_OVER: [u8; 60] =
    *b"plan=1\nagents=1\nname=a\nstops=2\ngo=1@0\ngo=2@1000001\nend=plan\n";

pub const EIGHTEENTH_TITLE: &str = "names that differ in the eighteenth byte";

pub const EIGHTEENTH: [u8; 103] =
    *b"plan=1\nagents=2\nname=survey-quad-east-1\nstops=1\ngo=1@0\nname=survey-quad-east-2\nstops=1\ngo=2@0\nend=plan\n";

pub const CAPITALS_TITLE: &str = "equal but for capitals";

pub const CAPITALS: [u8; 103] =
    *b"plan=1\nagents=2\nname=Survey-Quad-East-1\nstops=1\ngo=1@0\nname=survey-quad-east-1\nstops=1\ngo=2@0\nend=plan\n";

pub const EIGHTEENTH_CAPITAL_TITLE: &str = "equal but for a capital in the eighteenth byte";

pub const EIGHTEENTH_CAPITAL: [u8; 103] =
    *b"plan=1\nagents=2\nname=survey-quad-east-a\nstops=1\ngo=1@0\nname=survey-quad-east-A\nstops=1\ngo=2@0\nend=plan\n";

pub const CAPITAL_KEY_TITLE: &str = "key with a capital";

pub const CAPITAL_KEY: [u8; 47] = *b"plan=1\nagents=1\nName=a\nstops=1\ngo=1@0\nend=plan\n";

pub const CAPITALS_24_TITLE: &str = "name of 24 capitals";

pub const CAPITALS_24: [u8; 70] =
    *b"plan=1\nagents=1\nname=SURVEYQUADEASTABCDEFGHIJ\nstops=1\ngo=1@0\nend=plan\n";

pub const BRACKET_TITLE: &str = "name with a bracket";

pub const BRACKET: [u8; 48] = *b"plan=1\nagents=1\nname=a[\nstops=1\ngo=1@0\nend=plan\n";

pub const LONG_TITLE: &str = "text of 65537 bytes";

pub const LEG_TOP_TITLE: &str = "leg of 60";

pub const LEG_TOP: [u8; 60] =
    *b"plan=2\nagents=1\nname=a\nstops=2\ngo=1@0@0\ngo=2@60@60\nend=plan\n";

pub const LEG_LONG_TITLE: &str = "time that rises by 59 with a leg of 60";

pub const LEG_LONG: [u8; 60] =
    *b"plan=2\nagents=1\nname=a\nstops=2\ngo=1@0@0\ngo=2@59@60\nend=plan\n";

pub const LEG_LONG_SAME_TITLE: &str = "the same at one location";

pub const LEG_LONG_SAME: [u8; 60] =
    *b"plan=2\nagents=1\nname=a\nstops=2\ngo=1@0@0\ngo=1@59@60\nend=plan\n";

pub const LEG_NOT_RISING_TITLE: &str = "time that does not rise with a leg of 60";

pub const LEG_NOT_RISING: [u8; 59] =
    *b"plan=2\nagents=1\nname=a\nstops=2\ngo=1@0@0\ngo=2@0@60\nend=plan\n";

pub const LEG_SAME_TITLE: &str = "leg of 60 to the same location";

pub const LEG_SAME: [u8; 60] =
    *b"plan=2\nagents=1\nname=a\nstops=2\ngo=1@0@0\ngo=1@60@60\nend=plan\n";

pub const LEG_61_TITLE: &str = "leg of 61";

pub const LEG_61: [u8; 60] =
    *b"plan=2\nagents=1\nname=a\nstops=2\ngo=1@0@0\ngo=2@61@61\nend=plan\n";

pub const LEG_0_TITLE: &str = "leg of 0";

pub const LEG_0: [u8; 58] = *b"plan=2\nagents=1\nname=a\nstops=2\ngo=1@0@0\ngo=2@1@0\nend=plan\n";

pub const LEG_AT_FIRST_TITLE: &str = "leg of 1 into stop 0";

pub const LEG_AT_FIRST: [u8; 58] =
    *b"plan=2\nagents=1\nname=a\nstops=2\ngo=1@0@1\ngo=2@1@1\nend=plan\n";

pub const LEG_ABSENT_TITLE: &str = "two numbers in plan=2";

pub const LEG_ABSENT: [u8; 47] = *b"plan=2\nagents=1\nname=a\nstops=1\ngo=1@0\nend=plan\n";

pub const LEG_ABSENT_RANGE_TITLE: &str = "two numbers in plan=2, the location 65536";

pub const LEG_ABSENT_RANGE: [u8; 51] =
    *b"plan=2\nagents=1\nname=a\nstops=1\ngo=65536@0\nend=plan\n";

pub const LEG_PLAIN_TITLE: &str = "three numbers in plan=1";

pub const LEG_PLAIN: [u8; 49] = *b"plan=1\nagents=1\nname=a\nstops=1\ngo=1@0@0\nend=plan\n";

pub const LEG_TWICE_TITLE: &str = "four numbers in plan=2";

pub const LEG_TWICE: [u8; 51] = *b"plan=2\nagents=1\nname=a\nstops=1\ngo=1@0@0@0\nend=plan\n";

pub const FORM_3_TITLE: &str = "plan=3";

pub const FORM_3: [u8; 49] = *b"plan=3\nagents=1\nname=a\nstops=1\ngo=1@0@0\nend=plan\n";

pub const ACROSS_TITLE: &str = "call across two buffers";

pub const FULL_TITLE: &str = "input of 131072 bytes";

pub const OVER_TITLE: &str = "input of 131073 bytes";

pub const BEYOND_TITLE: &str = "plan past the first buffer";

// flight Q
pub const Q: [u8; 138] =
    *b"plan=1\nagents=2\nname=survey-quad-east-1\nstops=4\ngo=1@0\ngo=6@1\ngo=5@2\ngo=2@3\nname=survey-quad-east-2\nstops=3\ngo=3@0\ngo=5@4\ngo=4@5\nend=plan\n";

pub const COST_LINE: [u8; 7] = *b"cost=0\n";

pub const CALLS: [u8; 150] =
    *b"cost=0\ngrant=1\nturn=0\ncost=0\ngrant=1\ngrant=0\narrive=1\narrive=1\ncost=0\nturn=0\ngrant=1\narrive=1\ngrant=1\ngrant=2\nturn=1\narrive=0\ngrant=0\narrive=0\ncost=0\n";

pub const PLAIN_TITLE: &str = "Q";

pub const LEGS_OF_ONE_TITLE: &str = "Q as plan=2 with legs of one";

// .. as `plan=2` with legs of one
pub const LEGS_OF_ONE: [u8; 152] =
    *b"plan=2\nagents=2\nname=survey-quad-east-1\nstops=4\ngo=1@0@0\ngo=6@1@1\ngo=5@2@1\ngo=2@3@1\nname=survey-quad-east-2\nstops=3\ngo=3@0@0\ngo=5@4@1\ngo=4@5@1\nend=plan\n";

pub const LEG_OF_THREE_TITLE: &str = "Q with a leg of 3";

// .. and with a leg of 3 into drone 0's stop 2, with the times that this takes
pub const LEG_OF_THREE: [u8; 152] =
    *b"plan=2\nagents=2\nname=survey-quad-east-1\nstops=4\ngo=1@0@0\ngo=6@1@1\ngo=5@4@3\ngo=2@5@1\nname=survey-quad-east-2\nstops=3\ngo=3@0@0\ngo=5@6@1\ngo=4@7@1\nend=plan\n";

pub const LEG_CALLS: [u8; 98] =
    *b"cost=0\ngrant=1\nturn=0\ncost=0\nturn=0\ngrant=0\narrive=0\ncost=0\ngrant=0\ncost=0\nturn=0\narrive=0\ncost=0\n";
