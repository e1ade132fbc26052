ghost use Rattle.std.specs.Prelude.{◌≡◌, ◌<◌};
ghost use Rattle.iocm_model.specs.Machine.Numbering as numbering;

use iocm_types::Css;

/// The channel subsystems of a machine in their order, 0 to 5.
pub fn subsystems() -> [Css; 6]
    ensures { result ≡ numbering.subsystems }
{
    [
        subsystem(0),
        subsystem(1),
        subsystem(2),
        subsystem(3),
        subsystem(4),
        subsystem(5),
    ]
}

// The channel subsystem of a number.
fn subsystem(number: u8) -> Css
    requires { number < 6 }
    ensures { result ≡ number }
{
    match Css::new(number) {
        Some(css) => css,
        None => unreachable!(),
    }
}
