// The ten GAGE digests by definition (document 000, section 1.1.4; document 01, 'The digest'): the instances, the sponge over size and rate, how
// long its outputs are, and a known answer. There is no code; the sponge that meets the definitions is in the crate digest_sponge, the call in digest.
#![tactic(auto)]
