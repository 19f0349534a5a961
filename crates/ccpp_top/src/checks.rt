ghost use Rattle.std.specs.Prelude.{IfOk};
ghost use Rattle.cc_types.specs.Program.{IsWellFormed};
ghost use Rattle.ccpp_top.specs.Checks.{Checks, Shares, Lists, SaysCode};

use crate::answer::Answer;
use crate::status::Status;
use cc_lower::lower;
use cc_types::Checked;
use ccpp_edge::{Bytes, Memory};
use ccpp_source::read_source;
use code_listing::listing;
use sharing_check::sharing;
use std::alloc::Global;

/// What `check` answers on a file of these bytes.
pub(crate) fn check_answer(alloc: Global, source: &[u8]) -> Result<Answer, Memory>
    ensures { IfOk result (λ answer. Checks source.now answer.text answer.status) }
{
    match read_source(alloc, source) {
        Ok(_checked) => Answer::line(alloc, Status::Done, "ok"),
        Err(why) => Answer::refused(alloc, why),
    }
}

/// What `share` answers on a file of these bytes.
pub(crate) fn share_answer(alloc: Global, source: &[u8]) -> Result<Answer, Memory>
    ensures { IfOk result (λ answer. Shares source.now answer.text answer.status) }
{
    match read_source(alloc, source) {
        Ok(checked) => {
            let found = sharing(&checked);
            Answer::sharing(alloc, found)
        }
        Err(why) => Answer::refused(alloc, why),
    }
}

/// What `code` answers on a file of these bytes.
pub(crate) fn code_answer(alloc: Global, source: &[u8]) -> Result<Answer, Memory>
    ensures { IfOk result (λ answer. Lists source.now answer.text answer.status) }
{
    match read_source(alloc, source) {
        Ok(checked) => code_of(alloc, &checked),
        Err(why) => Answer::refused(alloc, why),
    }
}

/// The listing of the program's code.
fn code_of(alloc: Global, checked: &Checked) -> Result<Answer, Memory>
    requires { IsWellFormed checked.now }
    ensures { IfOk result (λ answer. SaysCode checked.now answer.text answer.status) }
{
    let code = lower(alloc, checked.core())?;
    let mut text = Bytes::new(alloc);
    listing(alloc, &code, &mut text)?;
    Ok(Answer {
        text,
        status: Status::Done,
    })
}
