//! Laws that users of the crate are promised. Each is a function with an empty body, whose contract is the law.

ghost use Rattle.std.specs.Prelude.{◌≡◌, ◌↔◌, [], IsTrue, List, None, map};
ghost use Rattle.vfs_core.specs.Marks.{live_files, live_paths, live_text, LivesNext};
ghost use Rattle.vfs_core.specs.VfsPath.{vfs_path_eq, PathContent};
ghost use Rattle.vfs_core.specs.declared.marks.Mark.{Mark};

/// Marks can be followed one at a time.
#[tactic(auto, using(crate::proofs::MarkLemmas::live_text_mark, crate::proofs::MarkLemmas::live_text_none, crate::proofs::MarkLemmas::live_files_paths))]
pub fn marks_follow_one_another()
    ensures none { (path : PathContent) → live_text [] path ≡ None }
    ensures next { (mark : Mark) (marks : List Mark) (path : PathContent)
        → LivesNext mark marks path }
    ensures files { (marks : List Mark)
        → map (λ file. file.0) (live_files marks) ≡ live_paths marks }
{}

/// Paths are equal where kind and text are.
pub fn path_equality_is_that_of_content()
    ensures { (x : PathContent) (y : PathContent) → IsTrue (vfs_path_eq x y) ↔ (x ≡ y) }
{}
