// The first line of the plan text, which names the plan's form.
ghost use Rattle.std.specs.Prelude.{◌≡◌, ◌<◌, ◌≤◌, ◌^◌, cond, eqb, Some, None};
ghost use Rattle.tables.specs.Limits.{limits};
ghost use Rattle.lines.specs.Bytes.{Put};
ghost use Rattle.lines.specs.Forms.{form_at};
ghost use Rattle.lines.specs.Keys.{first_line};

use crate::{bytes, keys};
use tables::entries::{LEGS_FORM, PLAIN_FORM};

// The form that a text's first line names, if it names one.
pub fn read_form(text: &[u8]) -> Option<u8>
    ensures { result ≡ cond (eqb (form_at limits text.now) 0) None (Some (form_at limits text.now)) }
{
    if bytes::starts(text, 0, &keys::PLAN_LINE) {
        return Some(PLAIN_FORM);
    }
    if bytes::starts(text, 0, &keys::LEGS_PLAN_LINE) {
        return Some(LEGS_FORM);
    }
    None
}

// Writes the first line, in the plan's own form.
pub fn put_form(buf: &mut [u8], at: usize, form: u8) -> usize
    requires { (at < 2 ^ 31) × (form ≤ limits.form) }
    ensures { Put buf.old at (first_line form) buf.new result }
{
    let digit = bytes::put_bytes(buf, at, &keys::PLAN);
    let feed = bytes::put_byte(buf, digit, b'0' + form);
    bytes::put_byte(buf, feed, keys::LINE_FEED)
}
