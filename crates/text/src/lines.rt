// Lines: a text is parted at each line feed.
ghost use Rattle.std.specs.Prelude.{◌≡◌};
ghost use Rattle.text.specs.Basic.{count};
ghost use Rattle.text.specs.Text.{line_end};

const LINE_FEED: u8 = 10;

// Where the line that begins at `at` ends.
pub fn line_end(s: &[u8], at: usize) -> usize
    ensures { result ≡ line_end s.now at }
{
    let Some(rest) = s.get(at..) else {
        return at;
    };
    at + rest.iter().take_while(|b| **b != LINE_FEED).count()
}

// The number of line feeds. `filter(..).count()` takes twice the instructions of this loop.
pub fn line_feeds(s: &[u8]) -> usize
    ensures { result ≡ count 10 s.now }
{
    let mut n = 0;
    for b in s {
        if *b == LINE_FEED {
            n += 1;
        }
    }
    n
}
