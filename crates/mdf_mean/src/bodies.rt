ghost use Rattle.mdf_mean.specs.Meanings.{Meaning};
ghost use Rattle.mdf_mean.specs.Fits.{Lawful};
ghost use Rattle.mdf_mean.specs.Language.{language};
ghost use Rattle.mpl_mean.specs.Accepted.{IsAcceptable};
ghost use Rattle.mdf_mean.specs.LawfulLanguage.{lawful_language};

use mpl_mean::Typed;

/// A program with journals: what its bodies do, with the laws that journals rest on.
pub trait Bodies {
    ghost meaning: { Self → Meaning };

    // what has to be known of a program for its laws
    ghost is_sound: { Self → Type 0 };

    ghost laws: { (p : Self) → is_sound p → Lawful (meaning p) };
}

/// A program, by the meaning of the language.
impl Bodies for Typed {
    ghost meaning = { language };

    ghost is_sound = { IsAcceptable };

    ghost laws = { lawful_language };
}
