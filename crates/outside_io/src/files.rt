// A list of named files, and a place in one of them.
ghost use Rattle.std.specs.Prelude.{◌≡◌, ℕ, ◌+◌, ◌^◌, ◌<◌, List, drop, length, None, Some, MatchOption};
ghost use Rattle.outside_io.specs.Files.{file_of, files_of, bytes_at};

use crate::byte_text::ByteText;

/// How far the file at an index is read.
#[derive(Clone, Copy)]
pub(crate) struct Place {
    pub(crate) file: usize,
    pub(crate) at: usize,
}

/// Where the first file of that name stands.
pub(crate) fn index_of(files: &[(ByteText, ByteText)], name: &str) -> Option<usize>
    ensures { MatchOption result (file_of (files_of files.now) name.now ≡ None)
        (λ file. file_of (files_of files.now) name.now ≡ Some (bytes_at files.now file)) }
{
    for (file, entry) in files.iter().enumerate() {
        if name.as_bytes() == entry.0.as_slice() {
            return Some(file);
        }
    }
    None
}

/// What is left of a file from a place on.
pub(crate) fn rest_at(files: &[(ByteText, ByteText)], place: Place) -> &[u8]
    ensures rest { result.now ≡ drop place.at (bytes_at files.now place.file) }
    ensures within { 0 < length result.now → place.at + length result.now < 2 ^ 64 }
{
    let Some(entry) = files.get(place.file) else {
        return &[];
    };
    let bytes = entry.1.as_slice();
    if place.at < bytes.len() {
        return &bytes[place.at..];
    }
    &[]
}
