//! Scripts.

use yp_base::series::Series;
use yp_command::receivers::Receivers;
use yp_journal::command::Commands;
use yp_schema::schema::Schema;
use yp_time::start::Start;

/// The commands of each lane, in order.
pub type Lanes = Series<Commands>;

/// What a script says: the instant of tick 0, the schema, the receivers, and the commands before the
/// lanes, in each lane and after them. A script without lanes has all its commands before them.
#[derive(Drop)]
pub struct Script {
    pub start: Start,
    pub schema: Schema,
    pub receivers: Receivers,
    pub before: Commands,
    pub lanes: Lanes,
    pub after: Commands,
}
