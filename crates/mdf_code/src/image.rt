ghost use Rattle.std.specs.Prelude.{◌≡◌, true, IfOk};
ghost use Rattle.mdf_code.specs.Images.{is_image};

use crate::copy::Copied;
use crate::raw::RawImage;
use mpl_value::NoMemory;
use std::marker::Model;

/// The code of a program: each way round a loop passes a test, sizes and counts are within their limits, and guards only
/// compute and jump forward.
#[derive(Drop)]
pub struct Image {
    raw: RawImage,
}

impl Model for Image {
    ghost use Rattle.std.specs.Prelude.{◌≡◌, true};
    ghost use Rattle.std.specs.Coded.{codes};
    ghost use Rattle.mdf_code.specs.Images.{is_image};
    ghost use Rattle.mdf_code.specs.declared.raw.RawImage.{RawImage};
    ghost use Rattle.mdf_code.specs.contracts.instr.Instr as instr;
    ghost use Rattle.mdf_code.specs.contracts.raw.RawCode as code;
    ghost use Rattle.mdf_code.specs.contracts.raw.RawFunction as function;
    ghost use Rattle.mdf_code.specs.contracts.raw.RawClass as class;
    ghost use Rattle.mdf_code.specs.contracts.raw.RawMember as member;
    ghost use Rattle.mdf_code.specs.contracts.raw.RawEntry as entry;
    ghost use Rattle.mdf_code.specs.contracts.raw.RawImage as image;

    ghost Value = { RawImage };

    ghost coded = { image.the_row.coded };

    ghost view = { λ i. i.raw };

    ghost invariant = { λ i. is_image i.raw ≡ true };
}

impl Image {
    /// The image of parts that are known to be one.
    pub fn of(raw: RawImage) -> Image
        requires { is_image raw ≡ true }
        ensures { result ≡ raw }
    {
        Image { raw }
    }

    pub fn raw(&self) -> &RawImage
        ensures parts { result.now ≡ self.now }
        ensures image { is_image result.now ≡ true }
    {
        &self.raw
    }

    /// An image of its own that equals this one.
    pub fn copy(&self) -> Result<Image, NoMemory>
        ensures { IfOk result (λ copy. copy ≡ self.now) }
    {
        let raw = self.raw.copied()?;
        Ok(Image { raw })
    }
}
