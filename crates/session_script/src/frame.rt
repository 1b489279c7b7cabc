ghost use Rattle.std.specs.Prelude.{◌≡◌, ◌≤◌};
ghost use Rattle.session_script.specs.Asked.{numbers_of};

use param_set::Params;
use std::marker::Model;

/// The parameters of a script, seen as their numbers.
#[derive(Drop)]
pub(crate) struct Frame {
    params: Params,
}

impl Model for Frame {
    ghost use Rattle.session_script.specs.Asked.{Numbers, numbers_of};

    ghost Value = { Numbers };

    ghost view = { λ a. numbers_of a.params };
}

impl Frame {
    pub(crate) fn new(params: Params) -> Frame
        ensures { result ≡ numbers_of params }
    {
        Frame { params }
    }

    pub(crate) fn params(&self) -> &Params
        ensures { numbers_of result.now ≡ self.now }
    {
        &self.params
    }

    /// The number of coefficients, 8 to 4096.
    pub(crate) fn n(&self) -> u32
        ensures value { result ≡ self.now.n }
        ensures few { result ≤ 4096 }
    {
        self.params.n() as u32
    }

    /// The modulus of plaintexts.
    pub(crate) fn t(&self) -> u64
        ensures { result ≡ self.now.t }
    {
        self.params.t()
    }

    /// The number of parties, 1 to 32.
    pub(crate) fn parties(&self) -> u32
        ensures { result ≡ self.now.parties }
    {
        self.params.parties() as u32
    }

    pub(crate) fn into_params(self) -> Params
        ensures { numbers_of result ≡ self }
    {
        self.params
    }
}
