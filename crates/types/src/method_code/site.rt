//! An instruction where it stands.

ghost use Rattle.std.specs.Prelude.{◌≡◌, option_map};
ghost use Rattle.model.specs.Sites.{site_at};
ghost use Rattle.types.specs.method_code.View.{member_of, body_of};
ghost use Rattle.types.specs.method_code.Site.{site_of};

use crate::method_code::declaration::MethodCode;
use model::Instr;
use opcodes::sized_at;

/// An instruction of a method's code, with the offset after it. Offsets are bytes from the code's start.
#[derive(Clone, Copy)]
pub struct Site<'a> {
    pub method: MethodCode<'a>,
    pub offset: u16,
    pub instr: Instr,
    pub next: usize,
}

/// The instruction at an offset, if one begins there.
pub fn site_at<'a>(method: &MethodCode<'a>, offset: u16) -> Option<Site<'a>>
    ensures { option_map site_of result ≡ site_at (member_of method.now) (body_of method.now) offset }
{
    let Some((instr, length)) = sized_at(&method.code.code, offset as usize) else {
        return None;
    };
    Some(Site {
        method: *method,
        offset,
        instr,
        next: offset as usize + length,
    })
}
