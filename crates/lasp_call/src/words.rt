//! The words of a call, each by its place.

ghost use Rattle.std.specs.Prelude.{◌≡◌, ◌<◌, length, slice_index_or};
ghost use Rattle.lasp_call.specs.Prelude.{word_at, words_of};

/// The word at a place of the command line; no text where there is none.
pub fn word(words: &[String], place: usize) -> &[u8]
    ensures { result.now ≡ word_at (words_of words.now) place }
{
    match words.get(place) {
        Some(word) => word.as_bytes(),
        None => b"",
    }
}

/// The word that names a file.
pub fn name_of(words: &[String], file: usize) -> &str
    requires { file < length words.now }
    ensures name { result.now ≡ word_at (words_of words.now) file }
    ensures within { file < length (words_of words.now) }
{
    words[file].as_str()
}
