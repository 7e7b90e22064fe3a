// Constraint bundles as definitions: what a bundle's file is, and what reading, writing and showing answer. No code.
// bundle_read, bundle_write and bundle_show are the operations, bundle_scan goes over a file, and `proof` takes its bundles from here.
#![tactic(auto)]
