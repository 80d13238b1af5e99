//! Laws of runs by threads; nothing runs.
ghost use Rattle.std.specs.Prelude.{◌≡◌, ◌<◌, ℕ, List, Ok};
ghost use Rattle.yp_time.specs.Instants.{IsStart};
ghost use Rattle.yp_script.specs.declared.script.Script.{Script};
ghost use Rattle.yp_script.specs.Script.{AreReceivers, script_in};
ghost use Rattle.yp_concurrent.specs.declared.outside.Standing.{Standing};
ghost use Rattle.yp_concurrent.specs.Promise.{IsServedBeside};
ghost use Rattle.yp_concurrent.specs.Running.{HasRun};

use yp_attempt::laws::{a_receivers_part_of_a_run_is_its_own_run, the_first_offer_is_found};
use yp_hearing::laws::every_run_of_a_receiver_is_heard;
use yp_texts::laws::a_scripts_commands_have_utf8;
use yp_traces::laws::workers_beside_each_other_serve_each_receiver;
use yp_worker::laws::a_worker_offers_what_its_run_offers;
use yp_world::laws::a_receiver_is_one_of_those_of_its_worker;

/// What workers did in a run of a script that was read serves each receiver: all that is promised holds.
pub fn a_run_by_threads_serves_each_receiver()
    ensures { (bytes : List ℕ) (script : Script) (workers : ℕ) (standing : Standing) → script_in bytes ≡ Ok script → AreReceivers script.receivers → IsStart script.start → 0 < workers
        → (run : HasRun script.schema script.start script.receivers workers script.before script.lanes script.after standing) → IsServedBeside script workers run.entries run.is.runs }
{
    workers_beside_each_other_serve_each_receiver();
    a_receivers_part_of_a_run_is_its_own_run();
    a_receiver_is_one_of_those_of_its_worker();
    a_worker_offers_what_its_run_offers();
    the_first_offer_is_found();
    every_run_of_a_receiver_is_heard();
    a_scripts_commands_have_utf8();
}
