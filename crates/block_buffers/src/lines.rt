//! Work on the bytes of a screen, for lines of any length.
ghost use Rattle.std.specs.Prelude.{◌≡◌, ◌≤◌, ◌+◌, ◌-◌, ◌++◌, take, drop, replicate, length};

/// What is in a place that no text fills.
const BLANK: u8 = b' ';

/// The text takes the place of the first bytes.
fn put_first(bytes: &mut [u8], text: &[u8])
    requires { length text.now ≤ length bytes.old }
    ensures { bytes.new ≡ text.now ++ drop (length text.now) bytes.old }
{
    bytes[..text.len()].copy_from_slice(text);
}

/// The text comes first, and as many bytes are lost at the end.
#[tactic(auto, using(crate::proofs::Turns::turns))]
fn push_first(bytes: &mut [u8], text: &[u8])
    requires { length text.now ≤ length bytes.old }
    ensures { bytes.new ≡ text.now ++ take (length bytes.old - length text.now) bytes.old }
{
    bytes.rotate_right(text.len());
    put_first(bytes, text);
}

fn blank_last(bytes: &mut [u8], n: usize)
    requires { n ≤ length bytes.old }
    ensures { bytes.new ≡ take (length bytes.old - n) bytes.old ++ replicate n 32 }
{
    let start = bytes.len() - n;
    bytes[start..].fill(BLANK);
}

/// The first bytes go, and as many blanks come last.
#[tactic(auto, using(crate::proofs::Turns::turns))]
fn drop_first(bytes: &mut [u8], n: usize)
    requires { n ≤ length bytes.old }
    ensures { bytes.new ≡ drop n bytes.old ++ replicate n 32 }
{
    bytes.rotate_left(n);
    blank_last(bytes, n);
}

/// The `n` bytes from `start` on.
pub fn part(bytes: &[u8], start: usize, n: usize) -> &[u8]
    requires { start + n ≤ length bytes.now }
    ensures value { result.now ≡ take n (drop start bytes.now) }
    ensures len { length result.now ≡ n }
{
    &bytes[start..start + n]
}

/// The text takes the place of the bytes from `start` on.
pub fn put_at(bytes: &mut [u8], start: usize, text: &[u8])
    requires { start + length text.now ≤ length bytes.old }
    ensures { bytes.new ≡ take start bytes.old ++ (text.now ++ drop (start + length text.now) bytes.old) }
{
    put_first(&mut bytes[start..], text);
}

/// The text is before the bytes from `start` on, and as many are lost at the end.
pub fn insert_at(bytes: &mut [u8], start: usize, text: &[u8])
    requires { start + length text.now ≤ length bytes.old }
    ensures { bytes.new ≡ take start
        bytes.old ++ (text.now ++ take (length bytes.old - start - length text.now) (drop start bytes.old)) }
{
    push_first(&mut bytes[start..], text);
}

/// The `n` bytes from `start` on go, and as many blanks come last.
pub fn delete_at(bytes: &mut [u8], start: usize, n: usize)
    requires { start + n ≤ length bytes.old }
    ensures { bytes.new ≡ take start bytes.old ++ (drop (start + n) bytes.old ++ replicate n 32) }
{
    drop_first(&mut bytes[start..], n);
}

pub fn blank(bytes: &mut [u8])
    ensures { bytes.new ≡ replicate (length bytes.old) 32 }
{
    bytes.fill(BLANK);
}
