//! What a call is lent.

use crate::RegionCache;
use wtf_base::Settings;
use wtf_dev::Shelf;
use wtf_replica::Replicas;
use wtf_ring::Ring;

/// What a call is lent: the stores, and what says where slices go.
#[derive(Drop)]
pub struct Dev<'a, S> {
    /// The stores of the servers.
    pub shelf: &'a mut Shelf<S>,
    /// The servers that are up and down.
    pub replicas: &'a Replicas,
    /// The places of regions.
    pub ring: &'a Ring,
    /// What calls remember.
    pub cache: &'a mut RegionCache,
    /// The settings, for which the replicas and the ring were made.
    pub settings: Settings,
}
