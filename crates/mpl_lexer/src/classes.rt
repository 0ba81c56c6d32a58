ghost use Rattle.std.specs.Prelude.{◌≡◌};
ghost use Rattle.mpl_mean.specs.Text.Lexemes.{is_blank, is_digit, is_letter, continues_name};

pub(crate) fn is_blank(byte: u8) -> bool
    ensures { result ≡ is_blank byte }
{
    matches!(byte, b' ' | b'\t' | b'\n' | b'\r')
}

pub(crate) fn is_digit(byte: u8) -> bool
    ensures { result ≡ is_digit byte }
{
    matches!(byte, b'0'..=b'9')
}

pub(crate) fn is_letter(byte: u8) -> bool
    ensures { result ≡ is_letter byte }
{
    matches!(byte, b'A'..=b'Z' | b'a'..=b'z' | b'_')
}

pub(crate) fn continues_name(byte: u8) -> bool
    ensures { result ≡ continues_name byte }
{
    is_letter(byte) || is_digit(byte)
}
