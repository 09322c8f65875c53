// Reading a text part by part. Each function answers the place after its part, or as `Err` the place at which the reading gives up.
ghost use Rattle.std.specs.Prelude.{◌≡◌, drop};
ghost use Rattle.texts.specs.Parts.{word_at, end_at};

// The word at a place.
pub fn word(text: &[u8], at: usize, word: &[u8]) -> Result<usize, usize>
    ensures { result ≡ word_at word.now at (drop at text.now) }
{
    let mut i = at;
    for &byte in word {
        if text.len() <= i || text[i] != byte {
            return Err(i);
        }
        i += 1;
    }
    Ok(i)
}

// The text's end at a place.
pub fn end(text: &[u8], at: usize) -> Result<usize, usize>
    ensures { result ≡ end_at at (drop at text.now) }
{
    if text.len() <= at { Ok(at) } else { Err(at) }
}
