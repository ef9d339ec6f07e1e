//! What a rule gives in one policy.

use crate::permit::Permit;
use crate::reach::Reach;
use std::alloc::{Allocator, Global};

/// What a rule reaches in one policy, and what it permits there: each permit once, in their order.
#[derive(Clone, Copy)]
pub struct Grant<'r, A: Allocator = Global> {
    pub reach: &'r Reach<A>,
    pub permits: &'r [Permit],
}
