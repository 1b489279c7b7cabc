//! What follows from the definitions, whatever is called: each function states a law, and does nothing.
ghost use Rattle.tensor_laws.specs.Products.{ProductsCarry, TensorsCarry};
ghost use Rattle.tensor_laws.specs.Relinearising.{RelinearisationsAddLittle, RelinearisationsFit, TensorsFit};
ghost use Rattle.tensor_laws.specs.Rounding.{NearestIsNear, NearestIsNearer, NearestIsTheOnly, ProductsAreWrapped};

/// The number that is nearest to t*x/q is so, for every q by at most a half, and for q odd by less and alone.
pub fn rounding()
    ensures near { NearestIsNear }
    ensures nearer { NearestIsNearer }
    ensures only { NearestIsTheOnly }
{}

/// A product of lists of whole numbers has the coefficients of the negacyclic product, and a tensor is of the ring.
pub fn products()
    ensures wrapped { ProductsAreWrapped }
    ensures fit { TensorsFit }
{}

/// Relinearisation keeps the phase of a triple, but for l * n * W times the noise of the key's rows, and is of the ring.
pub fn relinearisations()
    ensures noise { RelinearisationsAddLittle }
    ensures fit { RelinearisationsFit }
{}

/// The tensor of two ciphertexts carries the product of their plaintexts within a bound that is said in numbers, and so
/// does what it is relinearised to, with what the switch adds.
pub fn noise()
    ensures tensors { TensorsCarry }
    ensures products { ProductsCarry }
{}
