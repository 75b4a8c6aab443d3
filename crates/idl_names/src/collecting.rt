//! All declarations of all files, from the front.
ghost use Rattle.std.specs.Prelude.{◌≡◌, ◌<◌, [], get_or, length, map, IfOk, OnOk};
ghost use Rattle.idl_meaning_model.specs.Declarations as model;
ghost use Rattle.idl_model.specs.Trees as tree;
ghost use Rattle.idl_names.specs.Collected.{Adds, IsCollected};
ghost use Rattle.idl_trees.specs.Trees.{decl_of, def_of, trees_of};

use crate::declaration::Declared;
use crate::paths::{OUTERMOST, Paths};
use idl_trees::{Decl, Def, Tree};
use std::alloc::Global;
use uno_base::NoMemory;

/// What was met so far, and the paths of it.
#[derive(Drop)]
pub struct Collected<'a> {
    pub paths: Paths<'a>,
    pub declared: Vec<Declared<'a>>,
}

/// Collects what the files declare.
pub fn collect<'a>(alloc: Global, trees: &'a [Tree]) -> Result<Collected<'a>, NoMemory>
    ensures { IfOk result (IsCollected (trees_of trees.now)) }
{
    let paths = Paths::new(alloc)?;
    let mut collected = Collected {
        paths,
        declared: Vec::new(alloc),
    };
    collected.add_trees(trees)?;
    Ok(collected)
}

impl<'a> Collected<'a> {
    fn add_trees(&mut self, trees: &'a [Tree]) -> Result<(), NoMemory>
        requires paths { 0 < length self.old.paths }
        requires outermost { get_or self.old.paths 0 [] ≡ [] }
        ensures { OnOk result (Adds self.old (model.declarations (trees_of trees.now)) self.new) }
    {
        for tree in trees {
            self.add_defs(OUTERMOST, tree.defs.as_slice())?;
        }
        Ok(())
    }

    #[cycle(collecting)]
    fn add_defs(&mut self, modules: u32, defs: &'a [Def]) -> Result<(), NoMemory>
        requires { modules < length self.old.paths }
        ensures { OnOk result (Adds self.old (model.all_declared_in (get_or self.old.paths modules []) (tree.defs (map def_of defs.now))) self.new) }
    {
        for def in defs {
            self.add_def(modules, def)?;
        }
        Ok(())
    }

    #[cycle(collecting)]
    fn add_def(&mut self, modules: u32, def: &'a Def) -> Result<(), NoMemory>
        requires { modules < length self.old.paths }
        ensures { OnOk result (Adds self.old (model.declared_in (get_or self.old.paths modules []) (def_of def.now)) self.new) }
    {
        match def {
            Def::Module(name, inner) => {
                let opened = self.paths.open(modules, name.name.as_str())?;
                self.add_defs(opened, inner.as_slice())
            }
            Def::Declared(published, decl) => self.add_decl(modules, *published, decl),
        }
    }

    fn add_decl(&mut self, modules: u32, published: bool, decl: &'a Decl) -> Result<(), NoMemory>
        requires { modules < length self.old.paths }
        ensures { OnOk result (Adds self.old (model.declared_in (get_or self.old.paths modules []) (tree.declared published (decl_of decl.now))) self.new) }
    {
        let path = self.paths.open(modules, decl.name.name.as_str())?;
        self.declared.push(Declared {
            modules,
            path,
            published,
            name: &decl.name,
            body: &decl.body,
        })?;
        Ok(())
    }
}
