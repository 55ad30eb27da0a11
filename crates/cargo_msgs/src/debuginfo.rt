//! How much debug information an artifact holds: a number, a name, or nothing.

ghost use Rattle.std.specs.Prelude.{◌≡◌, IfOk};
ghost use Rattle.serde_json.specs.Data.{string};
ghost use Rattle.serde_json.specs.View.{view};
ghost use Rattle.cargo_msgs.specs.Debuginfo.{debuginfo_at, debuginfo_data, debuginfo_named, debuginfo_numbered};
ghost use Rattle.cargo_msgs.specs.laws.Debuginfo.{debuginfo-round_trips};

use base_text::{Text, TryClone};
use json_fields::{Json, ReadError, ReadJson, miss};
use serde_json::Value;
use std::alloc::{AllocError, Global};
use std::fmt;

/// The debug information of an artifact. `cargo` writes a number or a name.
#[derive(Debug, PartialEq, Eq, Hash, Drop)]
pub enum ArtifactDebuginfo {
    None,
    LineDirectivesOnly,
    LineTablesOnly,
    Limited,
    Full,
    /// A number that this program does not know.
    UnknownInt(i64),
    /// A name that this program does not know.
    UnknownString(Text),
}

impl ArtifactDebuginfo {
    // What a number means.
    #[tactic(auto, unfolding(crate::specs::Debuginfo::debuginfo_numbered))]
    fn of_number(number: i64) -> ArtifactDebuginfo
        ensures { result ≡ debuginfo_numbered number }
    {
        match number {
            0 => ArtifactDebuginfo::None,
            1 => ArtifactDebuginfo::Limited,
            2 => ArtifactDebuginfo::Full,
            _ => ArtifactDebuginfo::UnknownInt(number),
        }
    }

    // What a name means.
    #[tactic(auto, unfolding(crate::specs::Debuginfo::debuginfo_named))]
    fn of_name(alloc: Global, name: &str) -> Result<ArtifactDebuginfo, AllocError>
        ensures { IfOk result (λ debuginfo. debuginfo ≡ debuginfo_named name.now) }
    {
        let debuginfo = match name {
            "none" => ArtifactDebuginfo::None,
            "limited" => ArtifactDebuginfo::Limited,
            "full" => ArtifactDebuginfo::Full,
            "line-directives-only" => ArtifactDebuginfo::LineDirectivesOnly,
            "line-tables-only" => ArtifactDebuginfo::LineTablesOnly,
            _ => ArtifactDebuginfo::UnknownString(Text::of_str(alloc, name)?),
        };
        Ok(debuginfo)
    }
}

impl Default for ArtifactDebuginfo {
    ghost use Rattle.std.specs.Prelude.{◌≡◌};
    ghost use Rattle.cargo_msgs.specs.declared.debuginfo.ArtifactDebuginfo.TheVariants as debuginfo;

    ghost is_default = { λ x. x ≡ debuginfo.None };

    fn default() -> ArtifactDebuginfo {
        ArtifactDebuginfo::None
    }
}

impl TryClone for ArtifactDebuginfo {
    fn try_clone(&self, alloc: Global) -> Result<Self, AllocError> {
        match self {
            ArtifactDebuginfo::None => Ok(ArtifactDebuginfo::None),
            ArtifactDebuginfo::LineDirectivesOnly => Ok(ArtifactDebuginfo::LineDirectivesOnly),
            ArtifactDebuginfo::LineTablesOnly => Ok(ArtifactDebuginfo::LineTablesOnly),
            ArtifactDebuginfo::Limited => Ok(ArtifactDebuginfo::Limited),
            ArtifactDebuginfo::Full => Ok(ArtifactDebuginfo::Full),
            ArtifactDebuginfo::UnknownInt(number) => Ok(ArtifactDebuginfo::UnknownInt(*number)),
            ArtifactDebuginfo::UnknownString(name) => {
                Ok(ArtifactDebuginfo::UnknownString(name.try_clone(alloc)?))
            }
        }
    }
}

impl ReadJson for ArtifactDebuginfo {
    ghost reads = { debuginfo_at };

    fn read(alloc: Global, value: &Value) -> Result<ArtifactDebuginfo, ReadError> {
        match value {
            Value::Null => Ok(ArtifactDebuginfo::None),
            Value::Number(_) => Ok(ArtifactDebuginfo::of_number(i64::read(alloc, value)?)),
            Value::String(name) => Ok(ArtifactDebuginfo::of_name(alloc, name.as_str())?),
            _ => miss(alloc),
        }
    }
}

impl Json for ArtifactDebuginfo {
    ghost writes = { debuginfo_data };

    ghost height = { 0 };

    fn write(&self, alloc: Global) -> Result<Value, AllocError> {
        match self {
            ArtifactDebuginfo::None => Ok(Value::from(0u64)),
            ArtifactDebuginfo::Limited => Ok(Value::from(1u64)),
            ArtifactDebuginfo::Full => Ok(Value::from(2u64)),
            ArtifactDebuginfo::LineDirectivesOnly => text(alloc, "line-directives-only"),
            ArtifactDebuginfo::LineTablesOnly => text(alloc, "line-tables-only"),
            ArtifactDebuginfo::UnknownInt(number) => number.write(alloc),
            ArtifactDebuginfo::UnknownString(name) => name.write(alloc),
        }
    }

    ghost round_trips = { debuginfo-round_trips };
}

fn text(alloc: Global, name: &str) -> Result<Value, AllocError>
    ensures { IfOk result (λ value. view value ≡ string name.now) }
{
    Ok(Value::String(String::from_str(alloc, name)?))
}

impl fmt::Display for ArtifactDebuginfo {
    ghost use Rattle.std.specs.Prelude.{Some};
    ghost use Rattle.cargo_msgs.specs.Debuginfo.{debuginfo_text};

    ghost output = { λ x. Some (debuginfo_text x) };

    fn fmt<W: fmt::Write>(&self, f: &mut fmt::Formatter<W>) -> fmt::Result {
        match self {
            ArtifactDebuginfo::None => f.write_str("0"),
            ArtifactDebuginfo::Limited => f.write_str("1"),
            ArtifactDebuginfo::Full => f.write_str("2"),
            ArtifactDebuginfo::LineDirectivesOnly => f.write_str("line-directives-only"),
            ArtifactDebuginfo::LineTablesOnly => f.write_str("line-tables-only"),
            ArtifactDebuginfo::UnknownInt(number) => write!(f, "{number}"),
            ArtifactDebuginfo::UnknownString(name) => f.write_str(name.as_str()),
        }
    }
}
