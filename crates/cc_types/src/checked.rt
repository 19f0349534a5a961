ghost use Rattle.std.specs.Prelude.{◌≡◌, ◌↔◌, IsTrue, IfOk};
ghost use Rattle.cc_names.specs.Broken.{Answers};
ghost use Rattle.cc_names.specs.Names.{names_of};
ghost use Rattle.cc_types.specs.Program as spec;
ghost use Rattle.cc_types.specs.Program.{IsSpelled, IsWellFormed, IsChecked, Blocks, rules_broken};

use crate::elaboration::{Elaboration, elaboration_of};
use cc_names::{Broken, FunId, Names, TypeFault, least};
use cc_scopes::Share;
use cc_tree::{Item, Program};
use ccpp_edge::List;
use std::alloc::{AllocError, Global};
use std::marker::Model;

/// A well-formed program, with its names and its core. Contracts see the program: all else is made of it.
#[derive(Drop)]
pub struct Checked {
    program: Program,
    names: Names,
    core: cc_core::Program,
    blocking: List<bool>,
    shared: List<Share>,
    main_parameters: u32,
}

impl Model for Checked {
    ghost use Rattle.cc_tree.specs.contracts.expressions.Expr as expr;
    ghost use Rattle.cc_tree.specs.contracts.expressions.ExprKind as expr_kind;
    ghost use Rattle.cc_tree.specs.contracts.statements.Stmt as stmt;
    ghost use Rattle.cc_tree.specs.contracts.statements.StmtKind as stmt_kind;
    ghost use Rattle.cc_tree.specs.declared.declarations.Program.{Program};
    ghost use Rattle.cc_types.specs.Program.{IsChecked};
    ghost use Rattle.std.specs.Coded.{codes};

    ghost Value = { Program };

    ghost coded = { Prim.hlevel (codes, expr.the_row.coded, expr_kind.the_row.coded, stmt.the_row.coded, stmt_kind.the_row.coded) };

    ghost view = { λ c. c.program };

    ghost invariant = { λ c.
        IsChecked c.program c.names c.core c.blocking c.shared c.main_parameters };
}

/// The number of parameters of `main`. More than there are numbers fit into no memory.
fn main_parameters(items: &[Item]) -> Result<u32, AllocError>
    ensures { IfOk result (λ count. count ≡ spec.main_params items.now) }
{
    for item in items {
        if let Item::Func(function) = item {
            if function.name.as_str() == "main" {
                return u32::try_from(function.params.len()).map_err(|_| AllocError);
            }
        }
    }
    Ok(0)
}

/// What is found of a program that breaks no rule.
#[derive(Drop)]
struct Found {
    names: Names,
    made: Elaboration,
    main_parameters: u32,
}

impl Found {
    /// With the program of which it is found.
    fn checked(self, program: Program) -> Checked
        requires { IsChecked program self.names self.made.core self.made.blocking self.made.shared self.main_parameters }
        ensures { result ≡ program }
    {
        let Found {
            names,
            made,
            main_parameters,
        } = self;
        let Elaboration {
            core,
            blocking,
            broken: _,
            shared,
        } = made;
        Checked {
            program,
            names,
            core,
            blocking,
            shared,
            main_parameters,
        }
    }
}

fn unless(broken: Option<Broken>) -> Result<(), TypeFault>
    ensures { spec.IsUnless broken result }
{
    match broken {
        None => Ok(()),
        Some(first) => Err(first.into()),
    }
}

#[tactic(auto, using(crate::proofs::CheckLaws::first_answers, crate::proofs::CheckLaws::second_answers, crate::proofs::CheckLaws::second_or))]
fn found_of(alloc: Global, program: &Program) -> Result<Found, TypeFault>
    ensures { spec.Finds program.now result }
{
    let items = program.items.as_slice();
    let names = Names::of(alloc, program)?;
    let made = elaboration_of(alloc, &names, items)?;
    let main_parameters = main_parameters(items)?;
    unless(least(made.broken.as_slice()))?;
    Ok(Found {
        names,
        made,
        main_parameters,
    })
}

/// Checks a program.
///
/// A refusal names the broken rule or limit of the first group with the least line, at equal lines with the least number; and of
/// the second group where none of the first is broken.
pub fn check(alloc: Global, program: Program) -> Result<Checked, TypeFault>
    requires { IsSpelled program }
    ensures { Answers (rules_broken program) program result }
{
    match found_of(alloc, &program) {
        Err(fault) => {
            drop(program);
            Err(fault)
        }
        Ok(found) => Ok(found.checked(program)),
    }
}

impl Checked {
    /// The program, which some tokens spell, and which breaks no rule.
    pub fn program(&self) -> &Program
        ensures value { result.now ≡ self.now }
        ensures spelled { IsSpelled self.now }
        ensures well_formed { IsWellFormed self.now }
    {
        &self.program
    }

    /// Its names.
    pub fn names(&self) -> &Names
        ensures { result.now ≡ names_of self.now.items }
    {
        &self.names
    }

    /// Its core.
    pub fn core(&self) -> &cc_core::Program
        ensures { result.now ≡ spec.core_program self.now }
    {
        &self.core
    }

    /// The number of parameters of `main`.
    pub fn main_parameters(&self) -> u32
        ensures { result ≡ spec.main_params self.now.items }
    {
        self.main_parameters
    }

    /// Whether a function does what an atomic function may not: itself, or by a call.
    pub fn may_block(&self, function: FunId) -> bool
        ensures { IsTrue result ↔ Blocks self.now function.0 }
    {
        match self.blocking.get(function.0 as usize) {
            None => false,
            Some(blocking) => *blocking,
        }
    }

    /// The rules of sharing that it breaks. It is spelled by some tokens, and well formed.
    pub fn shared(&self) -> &[Share]
        ensures value { result.now ≡ spec.rules_shared self.now }
        ensures spelled { IsSpelled self.now }
        ensures well_formed { IsWellFormed self.now }
    {
        self.shared.as_slice()
    }
}
