// Why a factory wasn't opened.
use hib_store::OpenFault;

/// Why a factory wasn't opened, with the listeners that were handed in.
#[derive(Drop)]
pub struct OpenRefused<K, L> {
    /// Why, with the keeper.
    pub fault: OpenFault<K>,
    /// The listeners, untold.
    pub listeners: Vec<L>,
}
