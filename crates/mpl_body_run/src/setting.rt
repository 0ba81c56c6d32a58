use mpl_body_code::Image;
use mpl_value::Replies;
use std::alloc::Global;

/// What code runs in.
#[derive(Clone, Copy)]
pub struct Setting<'a> {
    pub alloc: Global,
    pub image: &'a Image,
    /// To the calls of the first body.
    pub replies: &'a Replies,
    pub budget: u64,
}
