//! The child of the drill, as a host in memory plays it.
ghost use Rattle.std.specs.Prelude.{◌≡◌, ◌%◌, ◌+◌, length, min, map, IfOk};
ghost use Rattle.plain_machine.specs.Exchanges.{Bytes};
ghost use Rattle.plain_machine.specs.Drill.{output_from, pieces};
ghost use Rattle.ek_types.specs.Listing.{items_of};
ghost use Rattle.host_link.specs.Meaning.{answer_of};
ghost use Rattle.host_link.specs.Cursors.{whole_play};
ghost use Rattle.line_drill.specs.DrillHost.{drill_play};

use ek_types::{ListOf, Mem};
use host_link::{Answer, Answers, Play, list_of};
use itoa::Buffer;
use std::alloc::Global;

/// All that it writes: the lines `é 0`, `é 1` and so on.
fn output(alloc: Global, lines: u32) -> Mem<Vec<u8>>
    ensures { IfOk result (λ all. all.items ≡ output_from 0 lines) }
{
    let mut all = Vec::new(alloc);
    for k in 0..lines {
        all.extend_from_slice("é ".as_bytes())?;
        all.extend_from_slice(Buffer::new().format(k).as_bytes())?;
        all.push(b'\n')?;
    }
    Ok(all)
}

/// What its reads give: pieces of 1, 2, 3, 4, 5, 6, 7, 1, 2 and so on bytes, the last as long as what remains.
fn reads(alloc: Global, output: &[u8]) -> Mem<Answers>
    ensures { IfOk result (λ reads. map answer_of (items_of reads) ≡
        map Bytes (pieces (length output.now) 1 output.now)) }
{
    let mut reads = ListOf::new(alloc);
    let mut left = output;
    let mut size = 1;
    while !left.is_empty() {
        let (piece, behind) = left.split_at(size.min(left.len()));
        reads.push(Answer::Bytes(list_of(alloc, piece)?))?;
        left = behind;
        size = size % 7 + 1;
    }
    Ok(reads)
}

/// The play of a child that writes so many lines, and then ends with code 0.
pub(crate) fn child(alloc: Global, lines: u32) -> Mem<Play>
    ensures { IfOk result (λ play. whole_play play ≡ drill_play lines) }
{
    let output = output(alloc, lines)?;
    let mut reads = reads(alloc, output.as_slice())?;
    reads.push(Answer::End)?;
    let mut ends = ListOf::new(alloc);
    ends.push(Answer::Code(0))?;
    Ok(Play { reads, ends })
}
