// Valid UTF-8, RFC 3629.
ghost use Rattle.std.specs.Prelude.{◌≡◌, ◌≤◌, length};
ghost use Rattle.text.specs.Text.{follows, after_byte, valid};
ghost use Rattle.text.specs.Owed.{lowest_tail, highest_tail, owed_of};

use crate::class::lead_length;

// The range of a tail byte.
pub const TAIL_LOW: u8 = 0x80;

pub const TAIL_HIGH: u8 = 0xbf;

// What a text owes before it may end: this many tail bytes, the next of them from `low` to `high`.
#[derive(Clone, Copy)]
pub struct Tails {
    more: u8,
    low: u8,
    high: u8,
}

// Tail bytes that may be any.
fn any_tails(more: u8) -> Tails
    ensures { result ≡ record { more = more; low = 0x80; high = 0xbf } }
{
    Tails {
        more,
        low: TAIL_LOW,
        high: TAIL_HIGH,
    }
}

// The lowest byte that may follow a lead byte: no overlong forms.
#[tactic(auto, unfolding(crate::specs::Owed::lowest_tail))]
fn lowest_tail(lead: u8) -> u8
    ensures { result ≡ lowest_tail lead }
{
    match lead {
        0xe0 => 0xa0,
        0xf0 => 0x90,
        _ => TAIL_LOW,
    }
}

// The highest byte that may follow a lead byte: no surrogates, nothing above U+10FFFF.
#[tactic(auto, unfolding(crate::specs::Owed::highest_tail))]
fn highest_tail(lead: u8) -> u8
    ensures { result ≡ highest_tail lead }
{
    match lead {
        0xed => 0x9f,
        0xf4 => 0x8f,
        _ => TAIL_HIGH,
    }
}

// What a lead byte owes, if it is one. Most bytes are ASCII: they owe nothing, and the table is not asked.
fn after_lead(b: u8) -> Option<Tails>
    ensures { owed_of result ≡ follows b }
{
    if b < TAIL_LOW {
        return Some(any_tails(0));
    }
    Some(Tails {
        more: lead_length(b).checked_sub(1)?,
        low: lowest_tail(b),
        high: highest_tail(b),
    })
}

// What is owed after one byte more; none once the text is wrong, however it goes on.
fn after_byte(t: Tails, b: u8) -> Option<Tails>
    ensures { owed_of result ≡ after_byte (owed_of (Some t)) b }
{
    if t.more == 0 {
        return after_lead(b);
    }
    if !(t.low..=t.high).contains(&b) {
        return None;
    }
    Some(any_tails(t.more - 1))
}

// What stands behind the ASCII bytes at the start, each a character by itself.
fn behind_ascii(s: &[u8]) -> &[u8]
    ensures part { length result.now ≤ length s.now }
    ensures same { valid result.now ≡ valid s.now }
{
    &s[s.iter().take_while(|b| **b < TAIL_LOW).count()..]
}

// The text is valid UTF-8. Between characters ASCII is passed at once.
pub fn is_utf8(s: &[u8]) -> bool
    ensures { result ≡ valid s.now }
{
    let mut owed = any_tails(0);
    let mut rest = behind_ascii(s);
    while let Some((b, behind)) = rest.split_first() {
        let Some(next) = after_byte(owed, *b) else {
            return false;
        };
        owed = next;
        rest = if owed.more == 0 {
            behind_ascii(behind)
        } else {
            behind
        };
    }
    owed.more == 0
}
