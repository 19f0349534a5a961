ghost use Rattle.std.specs.Prelude.{◌≡◌};
ghost use Rattle.cc_names.specs.Broken.{Answers};
ghost use Rattle.cc_names.specs.Group.{first_group};
ghost use Rattle.cc_names.specs.Names as spec;

use crate::broken::{TypeFault, least};
use crate::declarations::{ClassId, Entity, FunId, MemberId};
use crate::group::{file_rules, item_rules, no_main};
use crate::table::Table;
use cc_tree::Program;
use ccpp_edge::{List, Text};
use std::alloc::Global;
use std::marker::Model;

/// The names that a program declares, by their numbers. Contracts see its tables: the names of the file, and of each class.
#[derive(Debug, Drop)]
pub struct Names {
    file: Table<Entity>,
    members: List<Table<MemberId>>,
}

impl Model for Names {
    ghost use Rattle.cc_names.specs.Names.{NameTables};

    ghost Value = { NameTables };

    ghost view = { λ names. record { file = names.file; members = names.members } };
}

impl Names {
    /// The names of a program.
    ///
    /// It is refused exactly where a rule of the first group is broken, with the least: the one with the least line, and at equal
    /// lines the first in the table of static rules.
    pub fn of(alloc: Global, program: &Program) -> Result<Names, TypeFault>
        ensures { Answers (first_group program.now.items) (spec.names_of program.now.items) result }
    {
        let items = program.items.as_slice();
        let mut broken = List::new(alloc);
        no_main(&mut broken, items)?;
        let file = file_rules(alloc, &mut broken, items)?;
        let members = item_rules(alloc, &mut broken, items)?;
        match least(broken.as_slice()) {
            Some(first) => Err(first.into()),
            None => Ok(Names { file, members }),
        }
    }

    /// What a name of the file stands for, and `None` exactly where the file declares no such name.
    pub fn entity(&self, name: &Text) -> Option<Entity>
        ensures { result ≡ spec.entity_named self.now name.now }
    {
        self.file.get(name)
    }

    /// The class of a name, and `None` exactly where there is none.
    pub fn class(&self, name: &Text) -> Option<ClassId>
        ensures { result ≡ spec.class_named self.now name.now }
    {
        match self.entity(name) {
            Some(Entity::Class(class)) => Some(class),
            _ => None,
        }
    }

    /// The function of the file of a name, and `None` exactly where there is none. Functions of classes are not found.
    pub fn function(&self, name: &Text) -> Option<FunId>
        ensures { result ≡ spec.function_named self.now name.now }
    {
        match self.entity(name) {
            Some(Entity::Function(function)) => Some(function),
            _ => None,
        }
    }

    /// The member of a class of a name, and `None` exactly where there is no such class, or no such member of it.
    pub fn member(&self, class: ClassId, name: &Text) -> Option<MemberId>
        ensures { result ≡ spec.member_named self.now class name.now }
    {
        match self.members.get(class.0 as usize) {
            Some(members) => members.get(name),
            None => None,
        }
    }

    /// The number of the constant of a name, in declared order from 0, and `None` exactly where there is none.
    pub fn constant(&self, name: &Text) -> Option<u32>
        ensures { result ≡ spec.constant_named self.now name.now }
    {
        match self.entity(name) {
            Some(Entity::Constant(constant)) => Some(constant),
            _ => None,
        }
    }
}
