// The codes of findings. A caller in another language sees the number.
ghost use Rattle.std.specs.Prelude.{◌≡◌};
ghost use Rattle.findings.specs.Findings.{code_number, code_of};

#[derive(Clone, Copy, PartialEq, Eq)]
pub enum Code {
    // A comment or a template that ends elsewhere than it seems to: over something, or over white space and comments alone.
    RunsOn = 60,
    RunsOnBlank = 61,
    // A token in force that begins inside what its writer took for a comment.
    ReadAsCode = 62,
    CommentUnclosed = 63,
    TemplateUnclosed = 64,
    ByteOrderMark = 65,
}

impl From<Code> for u32 {
    ghost from_gives = { λ code number. number ≡ code_number code };

    fn from(code: Code) -> u32 {
        code as u32
    }
}

// A number that is no finding's.
#[derive(Clone, Copy, PartialEq, Eq)]
pub struct UnknownCode(pub u32);

impl TryFrom<u32> for Code {
    type Error = UnknownCode;

    ghost try_from_gives = { λ number read. read ≡ code_of number };

    fn try_from(number: u32) -> Result<Code, UnknownCode> {
        match number {
            60 => Ok(Code::RunsOn),
            61 => Ok(Code::RunsOnBlank),
            62 => Ok(Code::ReadAsCode),
            63 => Ok(Code::CommentUnclosed),
            64 => Ok(Code::TemplateUnclosed),
            65 => Ok(Code::ByteOrderMark),
            _ => Err(UnknownCode(number)),
        }
    }
}
