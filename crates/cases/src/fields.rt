// The fields of a file of cases: each has its length in front of its bytes. What the file is too short for is left out.
// That what is left behind a field is shorter is said too, so that a walk over a file is seen to end.
ghost use Rattle.std.specs.Prelude.{◌≡◌, ◌-◌, ◌<◌, ◌≤◌, length};
ghost use Rattle.std.specs.Iterator.{at_most};
ghost use Rattle.cases.specs.Fields.{IsNextCase, field, behind_fields, long_field, behind_long_field};

use crate::read::{behind, front, number, number24};

// Bytes of a field's length.
const SHORT: usize = 2;

const LONG: usize = 3;

// What stands behind the first n fields.
pub fn behind_fields(s: &[u8], n: usize) -> &[u8]
    ensures value { result.now ≡ behind_fields n s.now }
    ensures shorter { length result.now ≤ length s.now - n }
{
    let mut rest = s;
    for _ in 0..n {
        rest = behind(rest, SHORT + number(rest) as usize);
    }
    rest
}

// The bytes of the field behind the first n.
pub fn nth_field(s: &[u8], n: usize) -> &[u8]
    ensures { result.now ≡ field (behind_fields n s.now) }
{
    let rest = behind_fields(s, n);
    front(behind(rest, SHORT), number(rest) as usize)
}

// The cases of a file, each of so many fields. An item begins with its case's fields; the later cases stand behind them.
#[derive(Drop)]
pub struct Cases<'a> {
    rest: &'a [u8],
    fields: usize,
    ghost some: { 0 < fields },
}

impl<'a> Cases<'a> {
    pub fn of(s: &'a [u8], fields: usize) -> Self
        requires { 0 < fields }
        ensures rest { result.rest.now ≡ s.now }
        ensures fields { result.fields ≡ fields }
    {
        Cases { rest: s, fields }
    }
}

impl<'a> Iterator for Cases<'a> {
    type Item = &'a [u8];

    ghost next_gives = { λ s r t. IsNextCase s.fields s.rest.now r t.fields t.rest.now };

    ghost remaining = { λ s. at_most (length s.rest.now) };

    fn next(&mut self) -> Option<&'a [u8]> {
        if self.rest.is_empty() {
            return None;
        }
        let case = self.rest;
        self.rest = behind_fields(case, self.fields);
        Some(case)
    }
}

// The bytes of the first field, whose length takes three bytes.
pub fn long_field(s: &[u8]) -> &[u8]
    ensures { result.now ≡ long_field s.now }
{
    front(behind(s, LONG), number24(s) as usize)
}

// What stands behind such a field.
pub fn behind_long_field(s: &[u8]) -> &[u8]
    ensures value { result.now ≡ behind_long_field s.now }
    ensures shorter { length result.now ≤ length s.now - 3 }
{
    behind(s, LONG + number24(s) as usize)
}
