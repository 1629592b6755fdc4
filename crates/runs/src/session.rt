// A controller together with the grant that it has given, as it is handed to a caller.
ghost use Rattle.std.specs.Prelude.{◌≡◌};
ghost use Rattle.controller.specs.Steps.{Becomes};
ghost use Rattle.controller.specs.Grants.{out_to, released};
ghost use Rattle.runs.specs.declared.calls.Call.TheVariants as call;
ghost use Rattle.runs.specs.declared.calls.Answer.TheVariants as answer;
ghost use Rattle.runs.specs.Calls.{Performs, Holding};

use controller::controller::Controller;
use controller::grant::{BusRefusal, Grant};

// A controller, and the grant that is held while its bus is taken. The grant is released before both are let go.
// Its fields are the caller's to change, so the type itself says nothing of how they fit: a contract does.
pub struct Session {
    pub controller: Controller,
    pub grant: Option<Grant>,
}

// Gives the bus back under the grant that is held; without one there is nothing to give back.
pub(crate) fn give_back(controller: &mut Controller, grant: Option<Grant>) -> Result<(), BusRefusal>
    requires { Holding grant controller.old.bus }
    ensures { Performs controller.old call.Release controller.new (answer.Release result) }
{
    let grant = grant.ok_or(BusRefusal::NotGranted)?;
    controller.release(grant).unwrap();
    Ok(())
}

impl Session {
    // Lets the session go: a grant that is held is released.
    pub fn end(self) -> Controller
        requires { Holding self.grant self.controller.bus }
        ensures { Becomes self.controller result (released (out_to self.controller.bus)) }
    {
        let Session {
            mut controller,
            grant,
        } = self;
        let _ = give_back(&mut controller, grant);
        controller
    }
}
