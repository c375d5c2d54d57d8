//! How often the child of the drill is read, counted without the child.
ghost use Rattle.std.specs.Prelude.{◌≡◌, ◌+◌, ◌*◌, ◌≤◌, ℕ, List, length};
ghost use Rattle.plain_machine.specs.Drill.{output_from, pieces, drill_reads};

use itoa::Buffer;

/// The length of all that it writes: a line has its number, and four bytes more.
fn output_len(lines: u32) -> usize
    ensures exact { result ≡ length (output_from 0 lines) }
    ensures few { result ≤ 14 * lines }
{
    let mut all = 0;
    for k in 0..lines {
        all += Buffer::new().format(k).len() + 4;
    }
    all
}

/// How many pieces so many bytes are cut into.
fn piece_count(bytes: usize) -> usize
    ensures exact { (output : List ℕ) → bytes ≡ length output →
        result ≡ length (pieces bytes 1 output) }
    ensures few { result ≤ bytes }
{
    let mut count = 0;
    let mut left = bytes;
    let mut size = 1;
    while left > 0 {
        left -= size.min(left);
        size = size % 7 + 1;
        count += 1;
    }
    count
}

/// How often a script waits for the child of so many lines: once for each of its reads, and once more.
pub(crate) fn waits(lines: u32) -> usize
    ensures { result ≡ length (drill_reads lines) + 1 }
{
    piece_count(output_len(lines)) + 1
}
