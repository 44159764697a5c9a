// Reads page records from standard input until it ends, and prints the verdict of each, a line of four numbers.
#![tactic(auto)]

ghost use Rattle.std.specs.Prelude.{◌≡◌, length};

use std::io;

// Judges the next page, and answers whether there was one.
fn judge_next(rt: &HostRuntime, vocabulary: &mut [u8], page: &mut [u8]) -> io::Result<bool>
    requires vocabulary_len { length vocabulary.old ≡ 65536 }
    requires page_len { length page.old ≡ 65536 }
{
    let Ok(n) = records::read_slice(rt, true, vocabulary) else {
        return Ok(false);
    };
    let Ok(m) = records::read_slice(rt, false, page) else {
        return Ok(false);
    };
    records::print_verdict(rt, buffers::page_numbers(vocabulary, n, page, m))?;
    Ok(true)
}

// A proved loop has to end, and nothing says that the input does: the turns are counted down from a number that no run uses up.
fn main(rt: HostRuntime) -> io::Result<()> {
    let mut vocabulary = [0u8; 65536];
    let mut page = [0u8; 65536];
    for _ in 0..u64::MAX {
        if !judge_next(&rt, &mut vocabulary, &mut page)? {
            break;
        }
    }
    Ok(())
}
