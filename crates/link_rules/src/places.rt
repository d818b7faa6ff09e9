//! Refusals.

use jvm_types::{LRule, Place};

/// A rule of linking, and the place where it refuses.
pub type Fault = (LRule, Place);
