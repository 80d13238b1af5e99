//! What stays the same in a run.

use yp_journal::receiver::ReceiverInfo;
use yp_schema::schema::Schema;
use yp_time::start::Start;

/// The schema, the start of the ticks, the receivers, in the order of their declaration, and how many workers serve them.
#[derive(Clone, Copy)]
pub struct Setting<'a> {
    pub schema: &'a Schema,
    pub start: &'a Start,
    pub receivers: &'a [ReceiverInfo],
    pub workers: u32,
}
