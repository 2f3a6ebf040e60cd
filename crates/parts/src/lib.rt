// What is reported of a certificate or a CRL is a part of its tree of elements. Theorems alone.
#![tactic(auto)]
