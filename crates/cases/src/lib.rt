//! Cases: lines of JSON, each a call of a library with what it is given and what it gives. The words of the
//! command line name the files of cases, and a family says what a call gives. Also what cases of several programs have
//! in them: texts, paths, variables, command lines and recorded answers.
#![tactic(auto)]

mod answer;
mod answers;
mod bounds;
mod case;
mod compare;
mod given;
mod lines;
mod named_tools;
mod progress;
mod settings;
mod values;

pub use answer::{List, Object};
pub use answers::{output_of, push_line, runner_of};
pub use bounds::{agreement_answer, copied_answer, hash_of, is_copied, is_least};
pub use case::{
    Case, Fault, bytes_answer, error_answer, missed_answer, optional_answer, print_answer,
    printed_answer, text_answer,
};
pub use compare::{Family, run_files};
pub use given::{CaseAsk, Given, env_answer, env_of, insert, usual_tools};
pub use lines::{line_answer, line_of, variables_answer};
pub use named_tools::{given_of, tool_of};
pub use progress::Lines;
pub use settings::{features_of, manifest_of, optional_version, version_of};
pub use values::{
    absolute, atoms_answer, optional_path, optional_text, paths, paths_answer, texts, texts_answer,
    texts_of_pair, variables,
};
