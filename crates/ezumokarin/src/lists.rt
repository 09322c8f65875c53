// Lists and views.
ghost use Rattle.std.specs.Prelude.{◌≡◌, length};
ghost use Rattle.outcomes.specs.Answers.{buffer};
ghost use Rattle.slices.specs.Refusals.{check_outcome};
ghost use Rattle.views.specs.Calls.{view_outcome, tidy_outcome};
ghost use Rattle.ezumokarin.specs.Plain.{counted, wrote};

use crate::Plain;

// slices::check::check_list.
#[unsafe(no_mangle)]
pub extern "C" fn ezk_check(list: &[u8]) -> Plain
    ensures { result ≡ counted (check_outcome list.now) }
{
    Plain::from(slices::check::check_list(list))
}

// views::view.
#[unsafe(no_mangle)]
pub extern "C" fn ezk_view(list: &[u8], chunk_len: u64, out: &mut [u8]) -> Plain
    ensures value { result ≡ wrote (view_outcome list.now chunk_len (length out.old)) }
    ensures out_after { out.new ≡ buffer (view_outcome list.now chunk_len (length out.old)) out.old }
{
    Plain::from(views::view(list, chunk_len, out))
}

// views::tidy.
#[unsafe(no_mangle)]
pub extern "C" fn ezk_tidy(list: &[u8], out: &mut [u8]) -> Plain
    ensures value { result ≡ wrote (tidy_outcome list.now (length out.old)) }
    ensures out_after { out.new ≡ buffer (tidy_outcome list.now (length out.old)) out.old }
{
    Plain::from(views::tidy(list, out))
}
