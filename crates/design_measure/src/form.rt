/// A constant, and a factor for each of the first parameters in order. The others have the factor 0.
#[derive(Drop)]
pub struct Form {
    pub constant: u64,
    pub factors: Vec<u64>,
}
