// Plans across the chunks of a file.
ghost use Rattle.std.specs.Prelude.{◌≡◌, length};
ghost use Rattle.outcomes.specs.Answers.{left_in};
ghost use Rattle.files.specs.Calls.{file_outcome};
ghost use Rattle.ezumokarin.specs.Files.{wrote_file};

use crate::Filed;

// files::file_plan.
#[unsafe(no_mangle)]
pub extern "C" fn ezk_file_plan(
    lists: &[u8],
    lengths: &[u64],
    first_index: u64,
    file_len: u64,
    block_size: u64,
    start: u64,
    count: u64,
    out: &mut [u8],
) -> Filed
    ensures value { result ≡ wrote_file (file_outcome lists.now lengths.now first_index file_len block_size start count (length out.old)) }
    ensures out_after { out.new ≡ left_in (λ bs. bs) (file_outcome lists.now lengths.now first_index file_len block_size start count (length out.old)) out.old }
{
    Filed::from(files::file_plan(
        lists,
        lengths,
        first_index,
        file_len,
        block_size,
        start,
        count,
        out,
    ))
}
