//! The files of which a text is put together.

ghost use Rattle.std.specs.Prelude.{◌≡◌};
ghost use Rattle.text_warnings.specs.Files.{file_of, is_last};

/// How many files stand in front of the one that the place is of, where further files begin at these places.
pub(crate) fn file_of(starts: &[usize], place: usize) -> usize
    ensures { result ≡ file_of starts.now place }
{
    let mut file = 0;
    for start in starts {
        if *start <= place {
            file += 1;
        }
    }
    file
}

/// Whether the place is of the last file.
pub(crate) fn is_last(starts: &[usize], place: usize) -> bool
    ensures { result ≡ is_last starts.now place }
{
    file_of(starts, place) == starts.len()
}
