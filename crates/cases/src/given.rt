//! A toolchain, and what questions are asked with.

use crate::answer::List;
use crate::answers::runner_of;
use crate::case::{Case, Fault};
use crate::values::{absolute, optional_path, texts_of_pair, variables};
use base_text::{ByText, MemoryTree, RecordedRunner, Text, Tools};
use crate_graph_values::Env;
use pm_tools_ask::{Ask, Sysroot};
use serde_json::Value;
use std::alloc::{AllocError, Global};

/// What questions are asked with, as a case gives it.
pub type CaseAsk<'a> = Ask<'a, RecordedRunner, MemoryTree>;

/// A toolchain, and what questions are asked with. The members of a case are `root` and `src` of the toolchain, the
/// variables `process` and `extra`, the recorded `answers`, and the paths of `files`, which are empty.
#[derive(Drop)]
pub struct Given {
    pub sysroot: Sysroot,
    tools: Tools,
    process_env: Env,
    extra_env: ByText<Option<Text>>,
    runner: RecordedRunner,
    tree: MemoryTree,
}

impl Given {
    pub fn of_case(alloc: Global, case: Case<'_>, tools: Tools) -> Result<Box<Given>, Fault> {
        let mut given = Box::new(alloc, Given::of_tools(alloc, tools))?;
        given.read(alloc, case)?;
        Ok(given)
    }

    // The tools, and nothing else.
    fn of_tools(alloc: Global, tools: Tools) -> Self {
        Given {
            sysroot: Sysroot::empty(),
            tools,
            process_env: Env::new(alloc),
            extra_env: ByText::empty(alloc),
            runner: RecordedRunner::new(alloc),
            tree: MemoryTree::new(alloc),
        }
    }

    // Takes what a case gives, but for the tools.
    fn read(&mut self, alloc: Global, case: Case<'_>) -> Result<(), Fault> {
        self.sysroot = sysroot_of(alloc, case)?;
        self.process_env = env_of(alloc, case, "process")?;
        self.extra_env = variables(alloc, case, "extra")?;
        self.runner = runner_of(alloc, case)?;
        self.tree = tree_of(alloc, case)?;
        Ok(())
    }

    pub fn ask(&self) -> CaseAsk<'_> {
        Ask {
            runner: &self.runner,
            tree: &self.tree,
            tools: &self.tools,
            process_env: &self.process_env,
            extra_env: &self.extra_env,
        }
    }
}

fn sysroot_of(alloc: Global, case: Case<'_>) -> Result<Sysroot, Fault> {
    let root = optional_path(alloc, case, "root")?;
    Ok(Sysroot::new(root, optional_path(alloc, case, "src")?))
}

/// The tools by their usual names.
pub fn usual_tools(alloc: Global) -> Result<Tools, AllocError> {
    Ok(Tools {
        cargo: Text::of_str(alloc, "cargo")?,
        rustc: Text::of_str(alloc, "rustc")?,
        rustup: Text::of_str(alloc, "rustup")?,
        myself: Text::of_str(alloc, "live")?,
    })
}

/// The environment of the variables of a list, each with a value.
pub fn env_of(alloc: Global, case: Case<'_>, key: &'static str) -> Result<Env, AllocError> {
    let mut env = Env::new(alloc);
    for pair in case.list(key) {
        let (name, value) = texts_of_pair(alloc, case.with(pair))?;
        env.set(name, value)?;
    }
    Ok(env)
}

/// An environment as it is compared: its variables with their values.
pub fn env_answer(alloc: Global, env: &Env) -> Result<Value, Fault> {
    let mut pairs = List::new(alloc);
    for (name, value) in env.iter() {
        pairs = pairs.item(List::new(alloc).text(name).text(value).answer());
    }
    pairs.answer()
}

// The tree of the files of a case, which are empty.
fn tree_of(alloc: Global, case: Case<'_>) -> Result<MemoryTree, Fault> {
    let mut tree = MemoryTree::new(alloc);
    for file in case.list("files") {
        insert(alloc, &mut tree, case.with(file).as_text(), "")?;
    }
    Ok(tree)
}

/// Puts a file in.
pub fn insert(alloc: Global, tree: &mut MemoryTree, path: &str, text: &str) -> Result<(), Fault> {
    let text = Text::of_str(alloc, text)?;
    tree.insert(absolute(alloc, path)?, text)?;
    Ok(())
}
