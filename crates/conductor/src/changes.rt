// Which replies change the lent records.
ghost use Rattle.std.specs.Prelude.{◌≡◌, not};
ghost use Rattle.reading.specs.Replies.{reading_number, reading_meant};
ghost use Rattle.joining.specs.Replies.{join_meant};
ghost use Rattle.conductor.specs.Changes.{is_unchanged, is_join_unchanged};

use joining::replies::JoinRefusal;
use reading::replies::Refusal;

// A reading refused by 41 or 1 writes nothing; every other refusal zeroes the tables.
pub fn is_written(reading: Result<(), Refusal>) -> bool
    ensures { result ≡ not (is_unchanged (reading_number (reading_meant reading))) }
{
    !matches!(reading, Err(Refusal::TablesTooSmall | Refusal::TooLong(_)))
}

// A joining refused by 41, 40, 16 or 1 writes nothing. A refusal of the reading is neither 40 nor 16.
pub fn is_joined(joined: Result<(), JoinRefusal>) -> bool
    ensures { result ≡ not (is_join_unchanged (reading_number (join_meant joined))) }
{
    match joined {
        Ok(()) => true,
        Err(JoinRefusal::Refused(refusal)) => is_written(Err(refusal)),
        Err(JoinRefusal::NotSound | JoinRefusal::Started) => false,
    }
}
