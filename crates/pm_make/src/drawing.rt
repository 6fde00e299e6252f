ghost use Rattle.std.specs.Prelude.{◌≡◌, ◌<◌};
ghost use Rattle.pm_make.specs.Drawing.{stepped, drawn, name_from, named, turn_of, turned};

/// What one turn of the generator draws.
#[derive(Clone, Copy, Debug, PartialEq, Eq)]
pub struct Turn {
    /// The register of the new object, 0 to 63.
    pub register: u32,
    /// The object's two bytes, as a number below 65,536.
    pub bytes: u32,
    /// The register of what a field of the object is set to, 0 to 63.
    pub value: u32,
    /// The index of that field, 0 to 3.
    pub index: u32,
    /// The number of the name that is bound to the object, 0 to 15, where one is.
    pub name: Option<u32>,
}

/// What numbers are drawn from: a state, which begins as the seed.
#[derive(Drop)]
pub(crate) struct Draws {
    state: u32,
}

impl Draws {
    /// The state is the seed.
    pub fn new(seed: u32) -> Draws
        ensures { result.state ≡ seed }
    {
        Draws { state: seed }
    }

    // Draws a number below the limit.
    #[tactic(auto, unfolding(crate::specs::Drawing::stepped, crate::specs::Drawing::drawn))]
    fn draw(&mut self, limit: u32) -> u32
        requires { 0 < limit }
        ensures state { self.new.state ≡ stepped self.old.state }
        ensures number { result ≡ drawn self.new.state limit }
        ensures small { result < limit }
    {
        let next = u64::from(self.state) * 69_069 + 1;
        self.state = (next % 4_294_967_296) as u32;
        self.state / 65_536 % limit
    }

    // Decides whether a name is bound, and draws its number where it is.
    fn draw_name(&mut self) -> Option<u32>
        ensures name { result ≡ name_from self.old.state }
        ensures state { self.new.state ≡ named self.old.state }
    {
        if self.draw(8) == 0 {
            Some(self.draw(16))
        } else {
            None
        }
    }

    /// Draws what a turn needs.
    pub fn turn(&mut self) -> Turn
        ensures turn { result ≡ turn_of self.old.state }
        ensures state { self.new.state ≡ turned self.old.state }
    {
        let register = self.draw(64);
        let bytes = self.draw(65_536);
        let value = self.draw(64);
        let index = self.draw(4);
        let name = self.draw_name();
        Turn {
            register,
            bytes,
            value,
            index,
            name,
        }
    }
}
