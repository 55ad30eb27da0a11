//! The outputs of packages, and the lines of errors, while the messages of a build are read.

ghost use Rattle.std.specs.Prelude.{◌≡◌, ◌∷◌, ◌<◌, [], fold, length, IfOk, IsErr, IsErrOf, OnOk, Ok, Some};
ghost use Rattle.std.specs.Str.Lines.{lines};
ghost use Rattle.base_text_paths.specs.Arena.{number_of};
ghost use Rattle.pm_cargo_reading.specs.Nodes.{place_of_package};
ghost use Rattle.cargo_msgs.specs.declared.diagnostic.Diagnostic.{out-Diagnostic};
ghost use Rattle.pm_cargo_fetch.specs.Lines.{TakesLines};
ghost use Rattle.pm_tools.specs.Artifact.{output_after_artifact};
ghost use Rattle.pm_tools.specs.Lines.{artifact_lines, compiler_line, gains_library, lines_from, message_lines, script_lines};
ghost use Rattle.pm_tools.specs.Outputs.{default_outputs, error_of, outputs_after, start_state, take_artifact, take_output_line, take_message, take_rendered, take_script, with_error, with_line};
ghost use Rattle.pm_tools.specs.Packages.{lent_packages};
ghost use Rattle.base_values.specs.Outcome.{take_each};
ghost use Rattle.pm_tools.specs.Reading.{Leaves};
ghost use Rattle.pm_tools.specs.Script.{invalid_cfg_line, output_after_script};

use crate::artifact::{gives_library, take_artifact};
use crate::build_error::BuildError;
use crate::lines::{report_library, report_message, report_script};
use crate::packages::KnownPackages;
use crate::script::{AtomsError, atoms_of, take_script};
use base_text::{ArenaMap, CfgAtom, Items, Progress, Text};
use cargo_msgs::{Artifact, BuildScript, CompilerMessage, Message};
use pm_cargo::BuildScriptOutput;
use pm_cargo_packages::{Package, PackageTag};
use std::alloc::{AllocError, Global};
use std::marker::Model;

/// The outputs of packages, each under the number of its package.
pub(crate) type Outputs = ArenaMap<PackageTag, BuildScriptOutput>;

// The outputs that packages start with.
fn default_outputs(alloc: Global, packages: &KnownPackages<'_>) -> Result<Outputs, AllocError>
    ensures { IfOk result (λ outputs. outputs
        ≡ default_outputs (length (lent_packages packages.now.packages))) }
{
    let mut outputs = ArenaMap::new(alloc);
    for (number, _) in packages.packages.iter() {
        drop(outputs.insert(number, BuildScriptOutput::new(alloc))?);
    }
    Ok(outputs)
}

// Takes an artifact of the package, if it has an output.
fn change_by_artifact(
    alloc: Global,
    outputs: &mut Outputs,
    package: Package,
    artifact: &Artifact,
) -> Result<(), BuildError>
    ensures { Leaves result outputs.new
        (outputs_after (output_after_artifact artifact.now) outputs.old (number_of «package»)) }
{
    match outputs.get_mut(package) {
        Some(output) => take_artifact(alloc, artifact, output),
        None => Ok(()),
    }
}

// Takes a build script of the package, if it has an output.
fn change_by_script(
    alloc: Global,
    outputs: &mut Outputs,
    package: Package,
    script: &mut BuildScript,
    atoms: Items<CfgAtom>,
) -> Result<(), BuildError>
    ensures { Leaves result outputs.new
        (outputs_after (output_after_script script.old atoms) outputs.old (number_of «package»)) }
{
    match outputs.get_mut(package) {
        Some(output) => take_script(alloc, script, atoms, output),
        None => Ok(()),
    }
}

/// What is known while the messages of a build are read.
#[derive(Drop)]
pub(crate) struct OutputsBuilder {
    outputs: Outputs,
    // The lines of errors, each with a newline.
    errors: String,
}

impl Model for OutputsBuilder {
    ghost use Rattle.std.specs.Prelude.{string_bytes};
    ghost use Rattle.pm_tools.specs.Outputs as seen;

    ghost Value = { seen.BuildState };

    ghost coded = { seen.build_state_code };

    ghost view = { λ a. record { outputs = a.outputs; errors = string_bytes a.errors } };
}

impl OutputsBuilder {
    pub(crate) fn new(
        alloc: Global,
        packages: &KnownPackages<'_>,
    ) -> Result<OutputsBuilder, AllocError>
        ensures { IfOk result (λ builder. builder
            ≡ start_state (lent_packages packages.now.packages)) }
    {
        Ok(OutputsBuilder {
            outputs: default_outputs(alloc, packages)?,
            errors: String::new(alloc),
        })
    }

    // Adds a line of errors.
    fn push_error(&mut self, line: &str) -> Result<(), AllocError>
        ensures { OnOk result (self.new ≡ with_error self.old line.now) }
    {
        self.errors.push_str(line)?;
        self.errors.push('\n')?;
        Ok(())
    }

    // Adds the line that stands for a build script with a text that is no atom.
    fn push_invalid(&mut self, alloc: Global, cfg: &str) -> Result<(), AllocError>
        ensures { OnOk result (self.new ≡ with_error self.old (invalid_cfg_line cfg.now)) }
    {
        let line = format!(in alloc; "invalid cfg from cargo-metadata: {cfg}")?;
        self.push_error(line.as_str())
    }

    // Whether an artifact gives the package its library.
    fn gains_library(&self, package: Package, artifact: &Artifact) -> bool
        ensures { result ≡ gains_library self.now.outputs artifact.now (number_of «package») }
    {
        match self.outputs.get(package) {
            Some(output) => gives_library(artifact, &output.proc_macro_dylib_path),
            None => false,
        }
    }

    // Reports the library that an artifact gives the package, if it gives one.
    fn report_gain<P: Progress>(
        &self,
        alloc: Global,
        packages: &KnownPackages<'_>,
        package: Package,
        artifact: &Artifact,
        progress: &mut P,
    ) -> Result<(), AllocError>
        requires { number_of «package» < length packages.now.packages }
        ensures { TakesLines (IsErr result) (P.lines progress.old) (P.lines progress.new)
            (artifact_lines (lent_packages packages.now.packages) self.now.outputs artifact.now
            (Some (number_of «package»))) }
    {
        if self.gains_library(package, artifact) {
            report_library(alloc, packages, package, progress)
        } else {
            Ok(())
        }
    }

    // Takes an artifact. That of an unknown package is skipped.
    fn take_artifact<P: Progress>(
        &mut self,
        alloc: Global,
        packages: &KnownPackages<'_>,
        artifact: &Artifact,
        progress: &mut P,
    ) -> Result<(), BuildError>
        ensures leaves { Leaves result self.new (take_artifact self.old artifact.now
            (place_of_package (lent_packages packages.now.packages) artifact.now.package_id.repr)) }
        ensures lines { TakesLines (IsErrOf result BuildError.OutOfMemory)
            (P.lines progress.old) (P.lines progress.new)
            (artifact_lines (lent_packages packages.now.packages) self.old.outputs artifact.now
            (place_of_package (lent_packages packages.now.packages) artifact.now.package_id.repr)) }
    {
        let Some(package) = packages.find(&artifact.package_id) else {
            return Ok(());
        };
        self.report_gain(alloc, packages, package, artifact, progress)?;
        change_by_artifact(alloc, &mut self.outputs, package, artifact)
    }

    // Takes a build script. That of an unknown package is skipped, and one with a text that is no atom
    // gives a line of errors alone.
    fn take_script<P: Progress>(
        &mut self,
        alloc: Global,
        packages: &KnownPackages<'_>,
        script: &mut BuildScript,
        progress: &mut P,
    ) -> Result<(), BuildError>
        ensures leaves { Leaves result self.new (take_script self.old script.old
            (place_of_package (lent_packages packages.now.packages) script.old.package_id.repr)) }
        ensures lines { TakesLines (IsErrOf result BuildError.OutOfMemory)
            (P.lines progress.old) (P.lines progress.new)
            (script_lines (lent_packages packages.now.packages)
            (place_of_package (lent_packages packages.now.packages) script.old.package_id.repr)) }
    {
        let Some(package) = packages.find(&script.package_id) else {
            return Ok(());
        };
        report_script(alloc, packages, package, progress)?;
        match atoms_of(alloc, script.cfgs.as_slice()) {
            Ok(atoms) => change_by_script(alloc, &mut self.outputs, package, script, atoms),
            Err(AtomsError::Invalid(cfg)) => Ok(self.push_invalid(alloc, cfg.as_str())?),
            Err(AtomsError::OutOfMemory) => Err(BuildError::OutOfMemory),
        }
    }

    // Takes what the compiler said, as it rendered it, if it did.
    fn take_compiler_message<P: Progress>(
        &mut self,
        alloc: Global,
        message: &CompilerMessage,
        progress: &mut P,
    ) -> Result<(), AllocError>
        ensures ok { OnOk result (self.new
            ≡ take_rendered self.old (out-Diagnostic message.now.message).rendered) }
        ensures lines { TakesLines (IsErr result) (P.lines progress.old) (P.lines progress.new)
            (compiler_line message.now.target.name ∷ []) }
    {
        report_message(alloc, message.target.name.as_str(), progress)?;
        match &message.message.rendered {
            Some(rendered) => self.push_error(rendered.as_str()),
            None => Ok(()),
        }
    }

    // Takes a message.
    fn take_message<P: Progress>(
        &mut self,
        alloc: Global,
        packages: &KnownPackages<'_>,
        message: Message,
        progress: &mut P,
    ) -> Result<(), BuildError>
        ensures leaves { Leaves result self.new
            (take_message (lent_packages packages.now.packages) self.old message) }
        ensures lines { TakesLines (IsErrOf result BuildError.OutOfMemory)
            (P.lines progress.old) (P.lines progress.new)
            (message_lines (lent_packages packages.now.packages) self.old.outputs message) }
    {
        match message {
            Message::CompilerArtifact(artifact) => {
                self.take_artifact(alloc, packages, &artifact, progress)
            }
            Message::BuildScriptExecuted(mut script) => {
                self.take_script(alloc, packages, &mut script, progress)
            }
            Message::CompilerMessage(message) => {
                self.take_compiler_message(alloc, &message, progress)?;
                Ok(())
            }
            Message::BuildFinished(_) | Message::TextLine(_) => Ok(()),
        }
    }

    /// Takes the lines of the standard output.
    pub(crate) fn take_lines<P: Progress>(
        &mut self,
        alloc: Global,
        packages: &KnownPackages<'_>,
        out: &str,
        progress: &mut P,
    ) -> Result<(), BuildError>
        ensures leaves { Leaves result self.new
            (take_each (take_output_line (lent_packages packages.now.packages)) self.old (lines out.now)) }
        ensures lines { TakesLines (IsErrOf result BuildError.OutOfMemory)
            (P.lines progress.old) (P.lines progress.new)
            (lines_from (lent_packages packages.now.packages) (Ok self.old) (lines out.now)) }
    {
        for line in out.lines() {
            let message = Message::of_line(alloc, line)?;
            self.take_message(alloc, packages, message, progress)?;
        }
        Ok(())
    }

    /// Adds the lines of the error stream.
    pub(crate) fn push_errors(&mut self, err: &str) -> Result<(), AllocError>
        ensures { OnOk result (self.new ≡ record self.old {
          errors = fold with_line self.old.errors (lines err.now);
        }) }
    {
        for line in err.lines() {
            self.push_error(line)?;
        }
        Ok(())
    }

    /// The outputs, and why the build failed, if it did.
    pub(crate) fn finish(
        self,
        alloc: Global,
        ok: bool,
    ) -> Result<(Outputs, Option<Text>), AllocError>
        ensures { IfOk result (λ given. given ≡ (self.outputs, error_of ok self.errors)) }
    {
        let OutputsBuilder { outputs, errors } = self;
        let error = if ok {
            None
        } else if errors.is_empty() {
            Some(Text::of_str(alloc, "cargo check failed")?)
        } else {
            Some(Text::new(errors))
        };
        Ok((outputs, error))
    }
}
