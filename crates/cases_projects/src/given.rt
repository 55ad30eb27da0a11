//! What a load is given: a configuration, limits, recorded answers and files.

ghost use Rattle.std.specs.Prelude.{◌≡◌};

use crate::values::limit_of;
use base_text::{Limits, MemoryTree, RecordedRunner, Tools};
use cases::{
    Case, Fault, insert, optional_path, optional_text, paths, runner_of, usual_tools, variables,
};
use crate_graph::Env;
use pm_cargo_config::CargoConfig;
use pm_tools_ask::Ask;
use std::alloc::Global;

/// What a load is given besides its manifest and its configuration.
#[derive(Drop)]
pub struct Given {
    pub limits: Limits,
    tools: Tools,
    process_env: Env,
    runner: RecordedRunner,
    tree: MemoryTree,
}

impl Given {
    pub fn of_case(alloc: Global, case: Case<'_>) -> Result<Given, Fault> {
        let limits = limits_of(case);
        let runner = runner_of(alloc, case)?;
        let tree = tree_of(alloc, case)?;
        let tools = usual_tools(alloc)?;
        Ok(Given {
            limits,
            tools,
            process_env: Env::new(alloc),
            runner,
            tree,
        })
    }

    pub fn ask<'a>(&'a self, config: &'a CargoConfig) -> Ask<'a, RecordedRunner, MemoryTree>
        ensures { result.extra_env.now ≡ config.now.extra_env }
    {
        Ask {
            runner: &self.runner,
            tree: &self.tree,
            tools: &self.tools,
            process_env: &self.process_env,
            extra_env: &config.extra_env,
        }
    }
}

/// Sets what a case configures. The rest stays as it is.
pub fn configure(alloc: Global, case: Case<'_>, config: &mut CargoConfig) -> Result<(), Fault> {
    config.target = optional_text(alloc, case, "target")?;
    config.config_path = optional_path(alloc, case, "config_path")?;
    config.no_deps = case.flag("no_deps");
    config.set_test = case.flag("set_test");
    config.extra_env = variables(alloc, case, "env")?;
    config.extra_includes = paths(alloc, case, "extra")?;
    Ok(())
}

// The limits of a case. One that is left out is the greatest.
fn limits_of(case: Case<'_>) -> Limits {
    let mut limits = Limits::greatest();
    limits.packages = limit_of(case, "packages", limits.packages);
    limits.targets = limit_of(case, "targets", limits.targets);
    limits.crates = limit_of(case, "crates", limits.crates);
    limits
}

// The files of a case, each a path and a text.
fn tree_of(alloc: Global, case: Case<'_>) -> Result<MemoryTree, Fault> {
    let mut tree = MemoryTree::new(alloc);
    for file in case.list("files") {
        let file = case.with(file);
        insert(alloc, &mut tree, file.text_at(0), file.text_at(1))?;
    }
    Ok(tree)
}
