ghost use Rattle.text.specs.Cuts.{CutAt};

// What is before the first place where a byte stands, and what is behind it; all of the text where it stands nowhere.
pub(crate) fn cut_at(text: &[u8], byte: u8) -> (&[u8], Option<&[u8]>)
    ensures { CutAt byte text.now result.0.now result.1 }
{
    match text.iter().position(|b| *b == byte) {
        Some(end) => (&text[..end], Some(&text[end + 1..])),
        None => (text, None),
    }
}
