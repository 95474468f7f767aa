ghost use Rattle.std.specs.Prelude.{◌≡◌, ◌<◌, [], ◌∷◌, length, IfSome, IfOk, ◌==◌, position};
ghost use Rattle.std.specs.List.{slice_split, before_first};
ghost use Rattle.std.specs.Option.{option_map_or};
ghost use Rattle.script.specs.Words.{lines_of, words_of, texts};

use std::alloc::{AllocError, Global};

// The place of the first byte `at`.
fn place_of(text: &[u8], at: u8) -> Option<usize>
    ensures { result ≡ position (λ b. b == at) text.now }
{
    text.iter().position(|b| *b == at)
}

/// What stands before the first byte `at`, and what stands after it, if there is one.
pub(crate) fn cut(text: &[u8], at: u8) -> (&[u8], Option<&[u8]>)
    ensures before { result.0.now ≡ before_first (λ b. b == at) text.now }
    ensures split { slice_split (λ b. b == at) text.now ≡ result.0.now ∷ option_map_or (λ rest. slice_split (λ b. b == at) rest.now) result.1 [] }
    ensures shorter { IfSome result.1 (λ rest. length rest.now < length text.now) }
{
    match place_of(text, at) {
        Some(end) => (&text[..end], Some(&text[end + 1..])),
        None => (text, None),
    }
}

/// The lines of a text; the last one ends with the text.
pub(crate) fn lines(heap: Global, text: &[u8]) -> Result<Vec<&[u8]>, AllocError>
    ensures { IfOk result (λ lines. texts lines.items ≡ lines_of text.now) }
{
    text.split(|b| *b == b'\n').collect(heap)
}

/// The words of a line: what stands between blanks before the comment.
pub(crate) fn words(heap: Global, line: &[u8]) -> Result<Vec<&[u8]>, AllocError>
    ensures { IfOk result (λ words. texts words.items ≡ words_of line.now) }
{
    let (said, _) = cut(line, b'#');
    said.split(|b| matches!(*b, b' ' | b'\t' | b'\r'))
        .filter(|word| !word.is_empty())
        .collect(heap)
}
