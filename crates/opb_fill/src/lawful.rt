// A text that was judged lawful.
ghost use Rattle.opb_fill.specs.Fill.{Says};

#[derive(Clone, Copy)]
pub struct Lawful<'a> {
    pub text: &'a [u8],
    pub ghost says: { Says text.now },
}
