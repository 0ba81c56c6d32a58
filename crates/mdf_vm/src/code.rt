ghost use Rattle.std.specs.Prelude.{◌≡◌, ◌<◌, ◌^◌, IfSome, slice_get};
ghost use Rattle.std.specs.Option.{option_copied};
ghost use Rattle.mdf_code.specs.Frames as frames;
ghost use Rattle.mdf_code.specs.Parts as parts;
ghost use Rattle.mdf_vm.specs.Places as places;

use mdf_code::{Instr, RawCode, RawFunction, RawImage, RawMember};

/// The code that a frame stands in: that of `main`, of a plain function or of a member.
#[derive(Clone, Copy)]
pub enum CodeKind {
    Main,
    Function(u32),
    Member(u32),
}

/// The code in an image.
#[inline(always)]
pub fn code_at(image: &RawImage, code: CodeKind) -> Option<&RawCode>
    ensures { option_copied result ≡ parts.code_of image.now (places.code_of code) }
{
    match code {
        CodeKind::Main => Some(&image.main),
        CodeKind::Function(function) => function_body(image, function),
        CodeKind::Member(member) => member_body(image, member),
    }
}

#[inline(always)]
fn function_body(image: &RawImage, function: u32) -> Option<&RawCode>
    ensures { option_copied result ≡ parts.code_of image.now (frames.InFunction function) }
{
    let function = image.functions.get(function as usize)?;
    Some(&function.body)
}

#[inline(always)]
fn member_body(image: &RawImage, member: u32) -> Option<&RawCode>
    ensures { option_copied result ≡ parts.code_of image.now (frames.InMember member) }
{
    let member = image.members.get(member as usize)?;
    Some(&member.body)
}

/// The instructions of a code.
pub fn text_of(image: &RawImage, code: CodeKind) -> &[Instr]
    ensures { result.now ≡ parts.text_at image.now (places.code_of code) }
{
    match code_at(image, code) {
        None => &[],
        Some(body) => body.code.as_slice(),
    }
}

/// An instruction of a code.
#[inline(always)]
pub fn instruction_at(image: &RawImage, code: CodeKind, place: usize) -> Option<&Instr>
    ensures value { option_copied result ≡ slice_get (parts.text_at image.now (places.code_of code)) place }
    ensures before { IfSome result (λ _. place < 2 ^ 63) }
{
    code_at(image, code)?.code.as_slice().get(place)
}

/// The words of a variable.
pub fn size_of(image: &RawImage, code: CodeKind, variable: u32) -> Option<u32>
    ensures { result ≡ slice_get (parts.sizes_at image.now (places.code_of code)) variable }
{
    code_at(image, code)?.vars.get(variable as usize)
}

#[inline(always)]
pub fn is_place(image: &RawImage, code: CodeKind, place: u32) -> bool
    ensures { result ≡ parts.is_place image.now (places.code_of code) place }
{
    match code_at(image, code) {
        None => false,
        Some(body) => (place as usize) < body.code.len(),
    }
}

pub fn is_main(code: CodeKind) -> bool
    ensures { result ≡ parts.is_main (places.code_of code) }
{
    matches!(code, CodeKind::Main)
}

/// Whether a member's class is regular.
pub fn is_regular(image: &RawImage, member: &RawMember) -> Option<bool>
    ensures { result ≡ parts.is_regular image.now member.now }
{
    let class = image.classes.get(member.class as usize)?;
    Some(class.regular)
}

fn is_persistent_member(image: &RawImage, member: u32) -> bool
    ensures { result ≡ parts.is_persistent_member image.now (slice_get image.now.members member) }
{
    match image.members.get(member as usize) {
        None => false,
        Some(member) => !is_regular(image, member).unwrap_or(true),
    }
}

/// Whether `self` and a state stand in a code.
pub fn has_object(image: &RawImage, code: CodeKind) -> bool
    ensures object { result ≡ parts.has_object image.now (places.code_of code) }
    ensures state { result ≡ parts.has_state image.now (places.code_of code) }
{
    match code {
        CodeKind::Member(member) => is_persistent_member(image, member),
        _ => false,
    }
}

pub fn may_send(code: CodeKind) -> bool
    ensures { result ≡ parts.may_send (places.code_of code) }
{
    !matches!(code, CodeKind::Function(_))
}

pub fn may_post(image: &RawImage, code: CodeKind) -> bool
    ensures { result ≡ parts.may_post image.now (places.code_of code) }
{
    match code {
        CodeKind::Main => true,
        _ => has_object(image, code),
    }
}

pub fn function_of(image: &RawImage, code: CodeKind) -> Option<&RawFunction>
    ensures { option_copied result ≡ parts.function_of image.now (places.code_of code) }
{
    match code {
        CodeKind::Function(function) => image.functions.get(function as usize),
        _ => None,
    }
}

/// The words of the result that a member with a value gives.
pub fn given_words(image: &RawImage, code: CodeKind) -> Option<u32>
    ensures { result ≡ parts.given_words image.now (places.code_of code) }
{
    match code {
        CodeKind::Member(member) => image.members.get(member as usize)?.result,
        _ => None,
    }
}
