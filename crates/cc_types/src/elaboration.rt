ghost use Rattle.std.specs.Prelude.{◌≡◌, IfOk};
ghost use Rattle.cc_blocking.specs.Conduct.{AreMarks};
ghost use Rattle.cc_types.specs.Elaboration as spec;

use cc_blocking::{may_block, note_atomic};
use cc_core::Program;
use cc_functions::{Done, items};
use cc_names::{Broken, FunId, Names};
use cc_scopes::{Share, State};
use cc_tables::tables_of;
use cc_tree::Item;
use ccpp_edge::{List, Text};
use std::alloc::{AllocError, Global};

/// What is made of a program.
#[derive(Drop)]
pub(crate) struct Elaboration {
    /// Its core.
    pub(crate) core: Program,
    /// Which functions do what an atomic one may not, by their numbers.
    pub(crate) blocking: List<bool>,
    /// The rules of the second group that are broken.
    pub(crate) broken: List<Broken>,
    /// The rules of sharing that are broken.
    pub(crate) shared: List<Share>,
}

#[tactic(auto, unfolding(crate::specs::Elaboration::read))]
fn read(alloc: Global, names: &Names, all: &[Item]) -> Result<(Done, State), AllocError>
    ensures { IfOk result (λ r. r ≡ spec.read names.now all.now) }
{
    let tables = tables_of(alloc, names, all)?;
    let mut state = State::new(alloc);
    let done = items(alloc, names, &tables, &mut state, all)?;
    Ok((done, state))
}

fn number_of(function: Option<FunId>) -> u32
    ensures { result ≡ spec.number_of function }
{
    match function {
        None => 0,
        Some(function) => function.0,
    }
}

fn main_of(alloc: Global, names: &Names) -> Result<u32, AllocError>
    ensures { IfOk result (λ number. number ≡ spec.main_of names.now) }
{
    let name = Text::of(alloc, "main")?;
    Ok(number_of(names.function(&name)))
}

fn made_of(alloc: Global, names: &Names, read: (Done, State)) -> Result<Elaboration, AllocError>
    ensures made { IfOk result (λ made. made ≡ spec.made_of names.now read) }
    ensures marks { IfOk result (λ made. AreMarks read.0.conducts made.blocking) }
{
    let (done, state) = read;
    let blocking = may_block(alloc, done.conducts.as_slice())?;
    let State {
        locals: _,
        made: _,
        mut broken,
        shared,
        blocks: _,
        calls: _,
    } = state;
    note_atomic(&mut broken, done.conducts.as_slice(), blocking.as_slice())?;
    let main = main_of(alloc, names)?;
    let Done {
        functions,
        conducts: _,
        classes,
    } = done;
    Ok(Elaboration {
        core: Program {
            functions,
            classes,
            main,
        },
        blocking,
        broken,
        shared,
    })
}

/// What is made of a program whose names are known.
#[tactic(auto, unfolding(crate::specs::Elaboration::elaboration_of))]
pub(crate) fn elaboration_of(
    alloc: Global,
    names: &Names,
    all: &[Item],
) -> Result<Elaboration, AllocError>
    ensures made { IfOk result (λ made. made ≡ spec.elaboration_of names.now all.now) }
    ensures marks { IfOk result (λ made. AreMarks (spec.read names.now all.now).0.conducts made.blocking) }
{
    let read = read(alloc, names, all)?;
    made_of(alloc, names, read)
}
