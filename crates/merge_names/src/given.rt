// Names as texts.

ghost use Rattle.std.specs.Prelude.{◌≡◌, ◌<◌, length, slice_get, Some};
ghost use Rattle.merge_names.specs.Given.{texts};

/// Returns the name at a place.
pub(crate) fn text_at<'a>(names: &[&'a str], place: usize) -> &'a str
    requires { place < length names.now }
    ensures { slice_get (texts names.now) place ≡ Some result.now }
{
    names[place]
}
