//! Calls of the clients' registers.

ghost use Rattle.std.specs.Prelude.{◌<◌};
ghost use Rattle.pm_types.specs.declared.limits.TheConstants.{CLIENTS, REGISTERS};

use crate::containers::spelling::{Calls, address};
use pm_case_text::{CallsOf, Fault, first_word, push_calls, push_value, refuse, small};
use pm_handles::Handles;
use pm_types::{CLIENTS, REGISTERS};
use std::alloc::Global;

// Makes a call of a register that there is. It holds nothing from now on where what is set is no address.
fn push_there(
    handles: &mut Handles,
    client: u32,
    register: u32,
    value: &str,
    out: &mut String,
) -> Result<(), Fault>
    requires client { client < CLIENTS }
    requires register { register < REGISTERS }
{
    if value.is_empty() {
        return push_value(&handles.get(client, register), out);
    }
    push_value(&handles.set(client, register, address(value).ok()), out)
}

impl CallsOf<Handles> for Calls {
    fn call(
        _alloc: Global,
        called: &mut Handles,
        text: &str,
        out: &mut String,
    ) -> Result<(), Fault> {
        let (client, rest) = first_word(text);
        let (register, value) = first_word(rest);
        match (small(client), small(register)) {
            (Ok(client), Ok(register)) if client < CLIENTS && register < REGISTERS => {
                push_there(called, client, register, value, out)
            }
            _ => Err(refuse("no register")),
        }
    }
}

/// `CALLS`: the calls, between ` / `, of registers that are all empty: `CLIENT REGISTER` answers what the register
/// holds, and `CLIENT REGISTER CAR:SLOT`, or `CLIENT REGISTER -`, what it held before.
pub(crate) fn push_registers(alloc: Global, text: &str, out: &mut String) -> Result<(), Fault> {
    let mut handles = Handles::new(alloc)?;
    handles.sound();
    push_calls::<Calls, _>(alloc, &mut handles, text, out)
}
